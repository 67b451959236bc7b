// Records in bytes that the caller knows to be long enough: read, and tested in hot loops.
ghost use Rattle.std.specs.Prelude.{◌≡◌, ◌*◌, ◌≤◌, ◌<◌, length, get_or};
ghost use Rattle.notes.specs.Bytes.{pieces};
ghost use Rattle.notes.specs.Lists.{every};
ghost use Rattle.notes.specs.Index.{servers};
ghost use Rattle.notes.specs.Record.{record_size, decode, number as number_of, in_range, well_formed};
ghost use Rattle.notes.specs.Message.{records_in};
ghost use Rattle.notes.specs.Forms.{limit_at, limits_of};

use crate::index::{PhoneId, ServerId};
use crate::number::raw::Number;
use crate::record::Record;
use crate::vector;
use crate::vector::Vector;

// A record as it stands in a message, a history or an image.
pub type RecordBytes = [u8; Record::LEN];

// Where a cell and a phone out of range begin in a record's first four bytes, read as one number. By `as`, since a constant can call
// no `From`.
const CELLS_ABOVE: u32 = (Record::CELLS as u32) * 65536;

const PHONES_ABOVE: u32 = (PhoneId::COUNT as u32) * 256;

// So many records, one behind the other: where bytes and a count become a list of records.
pub fn first_records(b: &[u8], count: usize) -> &[RecordBytes]
    requires { record_size * count ≤ length b.now }
    ensures { result.now ≡ pieces record_size count b.now }
{
    let (records, _): (&[RecordBytes], &[u8]) = b.as_chunks();
    &records[..count]
}

// The record in the first 28 bytes. Here and below an array of exactly 28 would ask more of callers than a slice does.
pub fn decoded(b: &[u8]) -> Record
    requires { record_size ≤ length b.now }
    ensures { result ≡ decode b.now }
{
    Record {
        origin: ServerId(b[Record::ORIGIN]),
        phone: PhoneId(b[Record::PHONE]),
        cell: u16::at(b, Record::CELL),
        value: u32::at(b, Record::VALUE),
        time: u32::at(b, Record::TIME),
        stamp: vector::raw::vector_at(b, Record::STAMP),
    }
}

// The most that a position of T holds in a record well formed for n servers.
fn limit(n: u8, i: usize) -> u16
    ensures { result ≡ limit_at n i }
{
    if i < usize::from(n) {
        Record::NUMBER_MOST
    } else {
        0
    }
}

// The same for each of the eight positions: what `well_formed` asks for.
pub fn limits(n: u8) -> Vector
    ensures { result ≡ limits_of n }
{
    let mut most = Vector::zero();
    for (i, count) in most.counts.iter_mut().enumerate() {
        *count = limit(n, i);
    }
    most
}

// Origin, phone and cell are in range. Phone and cell are tested in one number of four bytes, above the origin: measured, a walk takes
// 8 to 16 in a hundred more instructions where the tests are joined by `&&` (docs/SPEED.md).
fn head_ok(b: &[u8], n: u8) -> bool
    requires { 4 ≤ length b.now }
    ensures { result ≡ in_range n (decode b.now) }
{
    if n <= b[Record::ORIGIN] {
        return false;
    }
    let head = u32::at(b, Record::ORIGIN);
    head < CELLS_ABOVE && head / PHONES_ABOVE % 4 == 0
}

// The number of the record in 28 bytes, whose origin is one of the eight.
pub fn number_of(b: &[u8]) -> u16
    requires { (record_size ≤ length b.now) × (get_or b.now 0 0 < servers) }
    ensures { result ≡ number_of (decode b.now) }
{
    u16::at(
        b,
        Record::STAMP + Vector::COUNT_LEN * usize::from(b[Record::ORIGIN]),
    )
}

// What the records of n servers are held to, made once before a loop.
#[derive(Clone, Copy)]
pub struct Form {
    pub n: u8,
    pub most: Vector,
    ghost few: { n ≤ servers },
    ghost made: { most ≡ limits_of n },
}

impl Form {
    pub fn of(n: u8) -> Form
        requires { n ≤ servers }
        ensures { result.n ≡ n }
    {
        Form { n, most: limits(n) }
    }

    // The record in 28 bytes is well formed.
    pub fn is_met(self, b: &[u8]) -> bool
        requires { record_size ≤ length b.now }
        ensures { result ≡ well_formed self.n (decode b.now) }
    {
        if !head_ok(b, self.n) {
            return false;
        }
        let stamp = vector::raw::vector_at(b, Record::STAMP);
        if self.most.is_behind(stamp) {
            return false;
        }
        1 <= number_of(b)
    }
}

// Each of the whole records of b is well formed for n servers. N stays a number here and in the walks of the crates above: a state,
// an image or a message says it, and the caller knows that it is at most eight.
pub fn all_well_formed(b: &[u8], n: u8) -> bool
    requires { n ≤ servers }
    ensures { result ≡ every (well_formed n) (records_in b.now) }
{
    let form = Form::of(n);
    first_records(b, b.len() / Record::LEN)
        .iter()
        .all(|record| form.is_met(record))
}
