// Numbers in bytes, read and stored at places that the caller knows to be there.
ghost use Rattle.std.specs.Prelude.{◌≡◌, ℕ, ◌+◌, ◌*◌, ◌≤◌, length, take, drop};
ghost use Rattle.std.proofs.lemmas.List.Edits.{sets};
ghost use Rattle.notes.specs.Bytes.{from_bytes, to_bytes};
ghost use Rattle.notes.specs.Vector.{count_size, counts_in, count_bytes};

// A number that has so many bytes, the lowest first. The impls are written out, since the gate refuses those that a macro of ours
// would write.
pub trait Number {
    ghost width: { ℕ };

    ghost value: { Self → ℕ };

    // The number in the bytes from a place on.
    fn at(b: &[u8], at: usize) -> Self
    where
        Self: Sized,
        requires { at + width ≤ length b.now }
        ensures { value result ≡ from_bytes (take width (drop at b.now)) };

    // A number's bytes stored from a place on.
    fn put(self, out: &mut [u8], at: usize)
    where
        Self: Sized,
        requires { at + width ≤ length out.old }
        ensures { out.new ≡ sets out.old at (to_bytes width (value self)) };
}

impl Number for u8 {
    ghost width = { 1 };

    ghost value = { λ x. x };

    fn at(b: &[u8], at: usize) -> u8 {
        b[at]
    }

    fn put(self, out: &mut [u8], at: usize) {
        out[at] = self;
    }
}

impl Number for u16 {
    ghost width = { 2 };

    ghost value = { λ x. x };

    fn at(b: &[u8], at: usize) -> u16 {
        u16::from_le_bytes(bytes_at(b, at))
    }

    fn put(self, out: &mut [u8], at: usize) {
        put_bytes(out, at, &self.to_le_bytes());
    }
}

impl Number for u32 {
    ghost width = { 4 };

    ghost value = { λ x. x };

    fn at(b: &[u8], at: usize) -> u32 {
        u32::from_le_bytes(bytes_at(b, at))
    }

    fn put(self, out: &mut [u8], at: usize) {
        put_bytes(out, at, &self.to_le_bytes());
    }
}

impl Number for u64 {
    ghost width = { 8 };

    ghost value = { λ x. x };

    fn at(b: &[u8], at: usize) -> u64 {
        u64::from_le_bytes(bytes_at(b, at))
    }

    fn put(self, out: &mut [u8], at: usize) {
        put_bytes(out, at, &self.to_le_bytes());
    }
}

// So many bytes from a place on.
fn bytes_at<const N: usize>(b: &[u8], at: usize) -> [u8; N]
    requires { at + N ≤ length b.now }
    ensures { result ≡ take N (drop at b.now) }
{
    let mut bytes = [0; N];
    bytes.copy_from_slice(&b[at..at + N]);
    bytes
}

// Numbers of two bytes one behind the other from a place on, as many as there is room for in `out`.
pub fn fill_counts(b: &[u8], at: usize, out: &mut [u16])
    requires { at + count_size * length out.old ≤ length b.now }
    ensures { out.new ≡ counts_in (length out.old) (drop at b.now) }
{
    // By place: after `iter_mut().zip` a proof knows nothing of the counts.
    for (i, x) in out.iter_mut().enumerate() {
        *x = u16::at(b, at + 2 * i);
    }
}

// The same, N of them.
pub fn counts_at<const N: usize>(b: &[u8], at: usize) -> [u16; N]
    requires { at + count_size * N ≤ length b.now }
    ensures { result ≡ counts_in N (drop at b.now) }
{
    let mut counts = [0; N];
    fill_counts(b, at, &mut counts);
    counts
}

// Bytes stored from a place on. The place stands beside the bytes, and no cursor keeps it: places are the layouts' constants.
pub fn put_bytes(out: &mut [u8], at: usize, from: &[u8])
    requires { at + length from.now ≤ length out.old }
    ensures { out.new ≡ sets out.old at from.now }
{
    out[at..at + from.len()].copy_from_slice(from);
}

// Numbers of two bytes stored one behind the other from a place on.
pub fn put_counts(out: &mut [u8], at: usize, xs: &[u16])
    requires { at + count_size * length xs.now ≤ length out.old }
    ensures { out.new ≡ sets out.old at (count_bytes xs.now) }
{
    // By place: after `chunks_mut` a proof knows how long out is and nothing of its bytes.
    for (i, x) in xs.iter().enumerate() {
        x.put(out, at + 2 * i);
    }
}
