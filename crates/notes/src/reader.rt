// A reader of update messages: it holds the message and the place of the next record. The methods of the struct are
// thin; the work is done by functions on a slice and a number.
ghost use Rattle.std.specs.Prelude.{◌≡◌, ◌-◌, leb, IfOk};
ghost use Rattle.std.specs.Iterator.{at_most};
ghost use Rattle.notes.specs.Record.{record_size};
ghost use Rattle.notes.specs.Message.{begin, begun, begun_at, read_at, place_after, left_from, Moves};

use crate::message::{Header, Refusal};
use crate::record::Record;
use crate::{message, record};

// Where reading begins; a message that is not right is refused with 6, and nothing of it is read.
pub fn first_place(m: &[u8]) -> Result<usize, Refusal>
    ensures { begun result ≡ begin m.now }
{
    message::check(m)?;
    Ok(Header::LEN)
}

// Whether a whole record stands at a place of so many bytes.
fn whole_at(len: usize, at: usize) -> bool
    ensures { result ≡ leb record_size (len - at) }
{
    Record::LEN <= len.saturating_sub(at)
}

// The record at a place, if a whole one stands there.
#[tactic(auto, unfolding(crate::specs::Message::read_at))]
pub fn read_at(m: &[u8], at: usize) -> Option<Record>
    ensures { result ≡ read_at m.now at }
{
    if whole_at(m.len(), at) {
        Some(record::raw::decoded(&m[at..at + Record::LEN]))
    } else {
        None
    }
}

// The place behind the record at a place, or the message's end.
#[tactic(auto, unfolding(crate::specs::Message::place_after))]
pub fn place_after(m: &[u8], at: usize) -> usize
    ensures { result ≡ place_after m.now at }
{
    if whole_at(m.len(), at) {
        at + Record::LEN
    } else {
        m.len()
    }
}

// How many whole records lie from a place on.
pub fn left_from(m: &[u8], at: usize) -> usize
    ensures { result ≡ left_from m.now at }
{
    m.len().saturating_sub(at) / Record::LEN
}

// The message and the place of the next record. A reader of a right message is made by `new`. One that is put together by hand,
// of bytes that no one checked or at any place, is read by the same rule: while 28 bytes are left from its place on, these are
// the record, well formed or not.
#[derive(Clone, Copy, Drop)]
pub struct Reader<'a> {
    pub message: &'a [u8],
    pub at: usize,
}

impl<'a> Reader<'a> {
    // A reader of a right message; any other is refused with 6.
    pub fn new(message: &'a [u8]) -> Result<Reader<'a>, Refusal>
        ensures message { IfOk result (λ r. r.message ≡ message.entry) }
        ensures place { begun_at result ≡ begin message.now }
    {
        let at = first_place(message)?;
        Ok(Reader { message, at })
    }

    // The record at the reader's place, which stays where it is.
    pub fn peek(self) -> Option<Record>
        ensures { result ≡ read_at self.entry.message.now self.entry.at }
    {
        read_at(self.message, self.at)
    }

    // The reader past that record.
    pub fn advance(self) -> Reader<'a>
        ensures { (result.message ≡ self.entry.message) × (result.at ≡ place_after self.entry.message.now self.entry.at) }
    {
        Reader {
            message: self.message,
            at: place_after(self.message, self.at),
        }
    }

    // How many whole records are left.
    pub fn left(self) -> usize
        ensures { result ≡ left_from self.entry.message.now self.entry.at }
    {
        left_from(self.message, self.at)
    }
}

// Reads the record at the reader's place and moves the reader past it.
impl<'a> Iterator for Reader<'a> {
    type Item = Record;

    ghost next_gives = { Moves };

    ghost remaining = { λ r. at_most (left_from r.message.now r.at) };

    fn next(&mut self) -> Option<Record> {
        let record = self.peek();
        *self = self.advance();
        record
    }
}
