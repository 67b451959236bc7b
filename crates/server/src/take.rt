// A message's writes in turn: which are new, V after them, and the first refusal.
ghost use Rattle.std.specs.Prelude.{◌≡◌, ◌+◌, ◌*◌, ◌≤◌, ◌<◌, map, length, get_or};
ghost use Rattle.std.proofs.lemmas.List.Edits.{sets};
ghost use Rattle.notes.specs.Index.{servers};
ghost use Rattle.notes.specs.Vector.{raised};
ghost use Rattle.notes.specs.Record.{record_size, decode, encode, number, record_bytes};
ghost use Rattle.rules.specs.Step.{taken};
ghost use Rattle.server.specs.Forms.{Listed, takes_of, seen, ahead};

use notes::index::ServerId;
use notes::record::Record;
use notes::record::raw::RecordBytes;
use notes::vector::Vector;
use notes::{number, record};
use rules::answer::Refusal;

// How many writes are new, and V after them.
#[derive(Clone, Copy, PartialEq, Eq)]
pub struct Takes {
    pub new: usize,
    pub vector: Vector,
}

// V after a new write: raised at its origin only.
fn after(v: Vector, write: &RecordBytes) -> Vector
    requires { get_or write.now 0 0 < servers }
    ensures { result ≡ (let w = decode write.now in raised v w.origin (number w)) }
{
    v.raised(
        ServerId(write[Record::ORIGIN]),
        record::raw::number_of(write),
    )
}

pub(crate) fn in_turn(records: &[RecordBytes], own: ServerId, v: Vector) -> Result<Takes, Refusal>
    requires { Listed records.now }
    ensures { takes_of result ≡ seen (taken own v (map decode records.now)) }
{
    let mut vector = v;
    let mut new = 0;
    for record in records {
        let origin = record[Record::ORIGIN];
        let number = record::raw::number_of(record);
        // By the byte: measured, an update of 256 takes 1,000 instructions more by `Vector::at` (docs/SPEED.md).
        let known = vector.counts[usize::from(origin)];
        if known < number {
            if ServerId(origin) == own {
                return Err(Refusal::OwnAhead);
            }
            if number - known != 1 {
                return Err(Refusal::Gap);
            }
            vector = after(vector, record);
            new += 1;
        }
    }
    Ok(Takes { new, vector })
}

// A write's bytes stored from a place on, which are those of the record that they say.
fn put_write(history: &mut [u8], at: usize, write: &RecordBytes)
    requires { at + record_size ≤ length history.old }
    ensures { history.new ≡ sets history.old at (encode (decode write.now)) }
{
    number::raw::put_bytes(history, at, write);
}

// The writes of a message that are above V at their turn, copied behind the writes that a history holds. How many it holds is where
// they go.
pub(crate) fn append(history: &mut [u8], held: usize, records: &[RecordBytes], v: Vector)
    requires { Listed records.now × (record_size * (held + length (ahead v (map decode records.now))) ≤ length history.old) }
    ensures { history.new ≡ sets history.old (record_size * held) (record_bytes (ahead v (map decode records.now))) }
{
    let mut vector = v;
    let mut end = Record::LEN * held;
    for record in records {
        let origin = usize::from(record[Record::ORIGIN]);
        let number = record::raw::number_of(record);
        // By the byte, as above: `raised` would take and give the whole vector for each new write.
        if vector.counts[origin] < number {
            vector.counts[origin] = number;
            put_write(history, end, record);
            end += Record::LEN;
        }
    }
}
