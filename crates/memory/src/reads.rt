// Tests of a state's tables: RW against CR, and numbers that are zero.
ghost use Rattle.std.specs.Prelude.{◌≡◌};
ghost use Rattle.rules.specs.Sound.{reads_ok, is_zero};

use rules::state::State;

// RW is at most nWrites, and zero outside CR. No exit inside: the loop becomes vector instructions.
pub(crate) fn reads_ok(s: &State) -> bool
    ensures { result ≡ reads_ok s.now }
{
    let mut ok = true;
    for (i, count) in s.rw.counts.iter().enumerate() {
        ok = ok & (*count <= s.nwrites) & (((s.cr >> i) % 2 == 1) | (*count == 0));
    }
    ok
}

// The numbers of a state are zero but for N and its own number. No exit inside, as above.
pub(crate) fn is_zero(s: &State) -> bool
    ensures { result ≡ is_zero s.now }
{
    let no_reads = s
        .rw
        .counts
        .iter()
        .fold(true, |zero, count| zero & (*count == 0));
    s.held == 0 && s.vector.zero_from(0) && s.cr == 0 && no_reads && s.nwrites == 0
}
