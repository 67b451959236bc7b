// Records of 28 bytes: one write each.
ghost use Rattle.std.specs.Prelude.{◌≡◌};
ghost use Rattle.notes.specs.Record.{decode, encode, number as number_of, in_range, well_formed, beats as beats_by};

use crate::index::{PhoneId, ServerId};
use crate::number::raw::Number;
use crate::vector::Vector;
use crate::{number, vector};

pub mod raw;

#[derive(Clone, Copy, PartialEq, Eq)]
pub struct Record {
    pub origin: ServerId,
    pub phone: PhoneId,
    pub cell: u16,
    pub value: u32,
    pub time: u32,
    pub stamp: Vector,
}

impl Record {
    // The bytes of a record, and where each of its numbers stands in them.
    pub const LEN: usize = 28;

    pub const ORIGIN: usize = 0;

    pub const PHONE: usize = 1;

    pub const CELL: usize = 2;

    pub const VALUE: usize = 4;

    pub const TIME: usize = 8;

    pub const STAMP: usize = 12;

    // How many cells there are, and the greatest number of a write.
    pub const CELLS: u16 = 1024;

    pub const NUMBER_MOST: u16 = 256;

    // The record that 28 bytes are. Past the end of the bytes stand zeros, so this is no `From`.
    pub fn from_bytes(b: &[u8]) -> Record
        ensures { result ≡ decode b.now }
    {
        if Self::LEN <= b.len() {
            return raw::decoded(b);
        }
        let mut padded = [0u8; Self::LEN];
        number::raw::put_bytes(&mut padded, 0, b);
        raw::decoded(&padded)
    }

    // The 28 bytes that a record is.
    pub fn to_bytes(self) -> [u8; Record::LEN]
        ensures { result ≡ encode self }
    {
        let mut b = [0u8; Self::LEN];
        self.origin.0.put(&mut b, Self::ORIGIN);
        self.phone.0.put(&mut b, Self::PHONE);
        self.cell.put(&mut b, Self::CELL);
        self.value.put(&mut b, Self::VALUE);
        self.time.put(&mut b, Self::TIME);
        vector::raw::put_vector(&mut b, Self::STAMP, self.stamp);
        b
    }

    // The write's number: T at its origin.
    pub fn number(self) -> u16
        ensures { result ≡ number_of self }
    {
        self.stamp.at(self.origin)
    }

    // Origin below n; phone and cell in range.
    #[tactic(auto, unfolding(crate::specs::Record::in_range))]
    fn in_range(self, n: u8) -> bool
        ensures { result ≡ in_range n self }
    {
        self.origin.0 < n && self.phone.0 < PhoneId::COUNT && self.cell < Self::CELLS
    }

    // Well formed for n servers. The phone time is free. For n = 0 no record is, since no origin is below it; for n above 8 a
    // record is exactly if it is for 8: at an origin past the eight positions the number is 0, and no position is past n.
    pub fn well_formed(self, n: u8) -> bool
        ensures { result ≡ well_formed n self }
    {
        self.in_range(n) && !raw::limits(n).is_behind(self.stamp) && 1 <= self.number()
    }

    // Whether this record wins a cell over the other: by the greater sum of T, then the higher origin, then the higher number. Each is
    // looked at where those before it are equal: as a struct of the three with a derived order, for which all are worked out first, a read
    // of a cell that has 256 notes takes 1.35 times the instructions (docs/SPEED.md).
    pub fn beats(self, other: Record) -> bool
        ensures { result ≡ beats_by self other }
    {
        let mine = self.stamp.sum();
        let theirs = other.stamp.sum();
        if mine != theirs {
            return theirs < mine;
        }
        if self.origin != other.origin {
            return other.origin < self.origin;
        }
        other.number() < self.number()
    }
}
