// Update messages: a header of eight bytes, then the sender's history in order.
ghost use Rattle.std.specs.Prelude.{◌≡◌, ◌≤◌, ◌&&◌};
ghost use Rattle.notes.specs.Index.{servers};
ghost use Rattle.notes.specs.Forms.{header_ok};
ghost use Rattle.notes.specs.Message.{checked_reply, check as check_of, whole, records_in, records_ok, filled, write as write_of};

use crate::index::ServerId;
use crate::number::raw::Number;
use crate::record;
use crate::record::Record;

pub mod raw;

// What a message says of itself: N, sender and count.
#[derive(Clone, Copy, PartialEq, Eq)]
pub struct Header {
    pub n: u8,
    pub sender: ServerId,
    pub count: usize,
}

// What the calls on messages and sessions refuse.
#[derive(Clone, Copy, PartialEq, Eq)]
pub enum Refusal {
    OutOfRange,
    Malformed,
    TooShort,
}

impl Header {
    // The bytes of a header, and where each of its numbers stands in them.
    pub const LEN: usize = 8;

    pub const N: usize = 0;

    pub const SENDER: usize = 1;

    pub const COUNT: usize = 2;

    pub const OFFSET: usize = 4;

    pub const TOTAL: usize = 6;

    // The greatest count of writes, and the length of a message that brings so many.
    pub const WRITES_MOST: usize = 256;

    pub const MESSAGE_MOST: usize = Self::LEN + Record::LEN * Self::WRITES_MOST;
}

// A message's header and its length suit each other.
fn header_ok(m: &[u8]) -> bool
    ensures { result ≡ header_ok m.now }
{
    if m.len() < Header::LEN {
        return false;
    }
    let sender = ServerId(m[Header::SENDER]);
    let count = usize::from(u16::at(m, Header::COUNT));
    let offset = usize::from(u16::at(m, Header::OFFSET));
    let total = usize::from(u16::at(m, Header::TOTAL));
    sender.is_one_of(m[Header::N])
        && count <= Header::WRITES_MOST
        && offset == Header::LEN
        && total == m.len()
        && m.len() == Header::LEN + Record::LEN * count
}

// Answers N, sender and count, or 6.
pub fn check(m: &[u8]) -> Result<Header, Refusal>
    ensures { checked_reply result ≡ check_of m.now }
{
    if !header_ok(m) {
        return Err(Refusal::Malformed);
    }
    let n = m[Header::N];
    let records = &m[Header::LEN..];
    if !record::raw::all_well_formed(records, n) {
        return Err(Refusal::Malformed);
    }
    Ok(Header {
        n,
        sender: ServerId(m[Header::SENDER]),
        count: records.len() / Record::LEN,
    })
}

// Whole records, at most 256, each well formed for n servers.
fn records_ok(b: &[u8], n: u8) -> bool
    requires { n ≤ servers }
    ensures { result ≡ (whole b.now && records_ok n (records_in b.now)) }
{
    b.len() % Record::LEN == 0
        && b.len() / Record::LEN <= Header::WRITES_MOST
        && record::raw::all_well_formed(b, n)
}

// Writes the message of these records at the start of out, and answers its length: 1 for N or sender, then 6, then 9 for out.
pub fn write(n: u8, sender: ServerId, records: &[u8], out: &mut [u8]) -> Result<usize, Refusal>
    ensures { filled result out.new ≡ write_of n sender records.now out.old }
{
    if !sender.is_one_of(n) {
        return Err(Refusal::OutOfRange);
    }
    if !records_ok(records, n) {
        return Err(Refusal::Malformed);
    }
    if out.len() < Header::LEN + records.len() {
        return Err(Refusal::TooShort);
    }
    raw::put_message(out, n, sender, records);
    Ok(Header::LEN + records.len())
}
