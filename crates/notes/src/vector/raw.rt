// Vectors in bytes, read and stored at places that the caller knows to be there.
ghost use Rattle.std.specs.Prelude.{◌≡◌, ◌+◌, ◌*◌, ◌≤◌, length, drop};
ghost use Rattle.std.proofs.lemmas.List.Edits.{sets};
ghost use Rattle.notes.specs.Index.{servers};
ghost use Rattle.notes.specs.Vector.{count_size, vector_from, vector_bytes};

use crate::number;
use crate::vector::Vector;

// The vector in sixteen bytes from a place on.
pub fn vector_at(b: &[u8], at: usize) -> Vector
    requires { at + count_size * servers ≤ length b.now }
    ensures { result ≡ vector_from (drop at b.now) }
{
    Vector {
        counts: number::raw::counts_at(b, at),
    }
}

// A vector's sixteen bytes stored from a place on.
pub fn put_vector(out: &mut [u8], at: usize, v: Vector)
    requires { at + count_size * servers ≤ length out.old }
    ensures { out.new ≡ sets out.old at (vector_bytes v) }
{
    number::raw::put_counts(out, at, &v.counts);
}
