// The listing of a message: a line of what it says, and one for each record.
ghost use Rattle.std.specs.Prelude.{◌≡◌, ◌+◌, ◌*◌, ◌≤◌, length};
ghost use mathlib.Core.List.{◌++◌, flat_map};
ghost use Rattle.notes.specs.Index.{servers};
ghost use Rattle.notes.specs.Message.{filled, history_most, left_from, unread};
ghost use Rattle.text.specs.Text.{digits_most, decimal, Added, HasRoom, record_line, head_line, listing, head_room, line_room, listing_room, list as list_of};

use crate::print::{DIGITS, Page};
use notes::message;
use notes::message::{Header, Refusal};
use notes::reader::Reader;
use notes::record::Record;
use notes::vector::Vector;

// How many numbers a record's line has: six, and the positions of T.
const NUMBERS: usize = 6 + Vector::LEN;

// Room for the head line and for a record's line.
const HEAD_ROOM: usize = 25 + 3 * DIGITS;

const LINE_ROOM: usize = (DIGITS + 1) * NUMBERS;

// Room for any listing.
pub const ROOM: usize = HEAD_ROOM + LINE_ROOM * Header::WRITES_MOST;

// A text and a number behind it.
fn put_named(page: &mut Page<'_>, t: &[u8], n: u32)
    requires { HasRoom page.old (length t.now + digits_most) }
    ensures { Added page.old (t.now ++ decimal n) page.new }
{
    page.text(t);
    page.number(n);
}

// What the message says: N, sender and count.
fn put_head(page: &mut Page<'_>, h: Header)
    requires { (h.count ≤ history_most) × HasRoom page.old head_room }
    ensures { Added page.old (head_line h.n h.sender.0 h.count) page.new }
{
    put_named(page, b"servers ", u32::from(h.n));
    put_named(page, b" sender ", u32::from(h.sender.0));
    // By `as`, since a usize becomes a u32 by no `From`; a message has at most 256 records.
    put_named(page, b" writes ", h.count as u32);
    page.end_line();
}

// A record's line, with n positions of T. N stays a number and a clause, here and below: a `Form` would make limits that no line needs.
fn put_record(page: &mut Page<'_>, r: Record, n: u8)
    requires { (n ≤ servers) × HasRoom page.old line_room }
    ensures { Added page.old (record_line n r) page.new }
{
    page.number(u32::from(r.origin.0));
    page.all_spaced(&[
        u32::from(r.number()),
        u32::from(r.phone.0),
        u32::from(r.cell),
        r.value,
        r.time,
    ]);
    let stamp = r.stamp.counts.map(u32::from);
    page.all_spaced(&stamp[..usize::from(n)]);
    page.end_line();
}

// The lines of the records that a reader has left.
fn put_records(page: &mut Page<'_>, records: Reader<'_>, n: u8)
    requires { (n ≤ servers) × HasRoom page.old (line_room * left_from records.message.now records.at) }
    ensures { Added page.old (flat_map (record_line n) (unread records.entry)) page.new }
{
    for record in records {
        put_record(page, record, n);
    }
}

// The listing of a message.
fn put_listing(page: &mut Page<'_>, m: &[u8])
    requires { HasRoom page.old listing_room }
    ensures { Added page.old (listing m.now) page.new }
{
    match message::check(m) {
        Ok(header) => {
            put_head(page, header);
            let records = Reader {
                message: m,
                at: Header::LEN,
            };
            put_records(page, records, header.n);
        }
        Err(_) => page.text(b"refused 6\n"),
    }
}

// Stores the listing of a message, right or not, at the start of out: 9 where out is shorter than `ROOM`.
pub fn list(m: &[u8], out: &mut [u8]) -> Result<usize, Refusal>
    ensures { filled result out.new ≡ list_of m.now out.old }
{
    if out.len() < ROOM {
        return Err(Refusal::TooShort);
    }
    let mut page = Page::new(out);
    put_listing(&mut page, m);
    Ok(page.at)
}
