// Messages of records that were tested before, stored where the caller knows that there is room.
ghost use Rattle.std.specs.Prelude.{◌≡◌, ◌+◌, ◌*◌, ◌/◌, ◌≤◌, ◌++◌, length, drop};
ghost use Rattle.std.proofs.lemmas.List.Edits.{sets};
ghost use Rattle.notes.specs.Record.{record_size};
ghost use Rattle.notes.specs.Message.{header_size, history_most, header_of, message_of, records_in};

use crate::index::ServerId;
use crate::message::Header;
use crate::number;
use crate::number::raw::Number;
use crate::record::Record;

// A header's bytes, stored at the start of out.
fn put_header(out: &mut [u8], h: Header)
    requires { (header_size ≤ length out.old) × (h.count ≤ history_most) }
    ensures { out.new ≡ sets out.old 0 (header_of h.n h.sender h.count) }
{
    let len = Header::LEN + Record::LEN * h.count;
    h.n.put(out, Header::N);
    h.sender.0.put(out, Header::SENDER);
    // By `as`, since a usize becomes a u16 by no `From`; all three fit, as the clause says.
    (h.count as u16).put(out, Header::COUNT);
    (Header::LEN as u16).put(out, Header::OFFSET);
    (len as u16).put(out, Header::TOTAL);
}

// The message of whole records, at most 256, at the start of out; the rest of out stays.
pub fn put_message(out: &mut [u8], n: u8, sender: ServerId, records: &[u8])
    requires { (header_size + length records.now ≤ length out.old) × (length records.now ≡ record_size * (length records.now / record_size)) × (length records.now / record_size ≤ history_most) }
    ensures { out.new ≡ message_of n sender (records_in records.now) ++ drop (header_size + length records.now) out.old }
{
    let count = records.len() / Record::LEN;
    put_header(out, Header { n, sender, count });
    number::raw::put_bytes(out, Header::LEN, records);
}
