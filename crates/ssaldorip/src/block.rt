// The state as a block of 160 bytes.
ghost use Rattle.std.specs.Prelude.{◌≡◌, ◌≤◌, length};
ghost use Rattle.ssaldorip.specs.Calls.{onto, block_size, block_ok, state_in, block_of};
ghost use Rattle.ssaldorip.specs.Forms.{state_told};

use notes::index::ServerId;
use notes::number::raw::Number;
use notes::{number, vector};
use rules::answer::Refusal;
use rules::state::{ReadTable, State};

// Where each number stands, and the whole.
const N: usize = 0;

const OWN: usize = 1;

const UP: usize = 2;

const SPARE: usize = 3;

const HELD: usize = 4;

const NWRITES: usize = 6;

const VECTOR: usize = 8;

const CR: usize = 24;

const RW: usize = 32;

pub(crate) const LEN: usize = 160;

// The up byte is 0 or 1, and the spare one zero. `state_of` tests once that the block has its bytes; a type for that would be made for
// two functions.
#[tactic(auto, using(crate::proofs::Stored::block_told))]
fn block_ok(b: &[u8]) -> bool
    requires { block_size ≤ length b.now }
    ensures { result ≡ block_ok b.now }
{
    b[UP] <= 1 && b[SPARE] == 0
}

// The numbers of a block as a state.
fn state_in(b: &[u8]) -> State
    requires { block_size ≤ length b.now }
    ensures { result ≡ state_in b.now }
{
    State {
        n: b[N],
        own: ServerId(b[OWN]),
        up: b[UP] == 1,
        held: u16::at(b, HELD),
        vector: vector::raw::vector_at(b, VECTOR),
        cr: u64::at(b, CR),
        rw: ReadTable {
            counts: number::raw::counts_at(b, RW),
        },
        nwrites: u16::at(b, NWRITES),
    }
}

// The state of a block: 9 for too few bytes. A block that is not right has the state of no server.
pub(crate) fn state_of(b: &[u8]) -> Result<State, Refusal>
    ensures { result ≡ state_told b.now }
{
    if b.len() < LEN {
        return Err(Refusal::TooShort);
    }
    if !block_ok(b) {
        return Ok(State::blank(false, 0, ServerId(0)));
    }
    Ok(state_in(b))
}

// A state in its block; the bytes past it stay.
pub(crate) fn put_state(b: &mut [u8], s: &State)
    requires { block_size ≤ length b.old }
    ensures { b.new ≡ onto (block_of s.now) b.old }
{
    s.n.put(b, N);
    s.own.0.put(b, OWN);
    u8::from(s.up).put(b, UP);
    0u8.put(b, SPARE);
    s.held.put(b, HELD);
    s.nwrites.put(b, NWRITES);
    number::raw::put_counts(b, VECTOR, &s.vector.counts);
    s.cr.put(b, CR);
    number::raw::put_counts(b, RW, &s.rw.counts);
}
