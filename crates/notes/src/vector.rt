// Vectors of eight counts, one for each server: the paper's V, R and T.
ghost use Rattle.std.specs.Prelude.{◌≡◌};
ghost use Rattle.notes.specs.Vector.{zeros, at as count_at, raised as raised_to, maximum as maximum_of, sum as sum_of, behind, zero_from};

use crate::index::ServerId;

pub mod raw;

#[derive(Clone, Copy, PartialEq, Eq)]
pub struct Vector {
    pub counts: [u16; Vector::LEN],
}

impl Vector {
    // How many positions a vector has, how many bytes each of them, and all.
    pub const LEN: usize = 8;

    pub const COUNT_LEN: usize = 2;

    pub const SIZE: usize = Self::COUNT_LEN * Self::LEN;

    // Eight zeros.
    pub fn zero() -> Vector
        ensures { result ≡ zeros }
    {
        Vector {
            counts: [0; Self::LEN],
        }
    }

    // The count at a server; past the last position it is zero.
    pub fn at(self, s: ServerId) -> u16
        ensures { result ≡ count_at self s }
    {
        self.counts.get(usize::from(s.0)).copied().unwrap_or(0)
    }

    // The vector with its count at a server raised to k; a count that is k or more stays.
    pub fn raised(mut self, s: ServerId, k: u16) -> Vector
        ensures { result ≡ raised_to self s k }
    {
        let i = usize::from(s.0);
        // A store behind a test: after `get_mut` a proof knows nothing of the counts.
        if i < Self::LEN {
            self.counts[i] = self.counts[i].max(k);
        }
        self
    }

    // Position by position the greater of two.
    pub fn maximum(mut self, other: Vector) -> Vector
        ensures { result ≡ maximum_of self other }
    {
        // By index: tried with `iter_mut().zip`, after which a proof knows nothing of the counts.
        for (i, count) in self.counts.iter_mut().enumerate() {
            *count = (*count).max(other.counts[i]);
        }
        self
    }

    // The sum of the eight counts.
    pub fn sum(self) -> u32
        ensures { result ≡ sum_of self }
    {
        self.counts.iter().map(|count| u32::from(*count)).sum()
    }

    // Whether this vector is below the other at some position. No exit inside: the loop becomes vector instructions.
    pub fn is_behind(self, other: Vector) -> bool
        ensures { result ≡ behind self other }
    {
        self.counts
            .iter()
            .zip(&other.counts)
            .fold(false, |below, (mine, theirs)| below | (mine < theirs))
    }

    // Whether the positions from n on are zero.
    pub fn zero_from(self, n: u8) -> bool
        ensures { result ≡ zero_from n self }
    {
        self.counts
            .iter()
            .skip(usize::from(n))
            .fold(true, |zero, count| zero & (*count == 0))
    }
}
