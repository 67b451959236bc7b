// A walk over records that the caller knows to be no more than a history holds.
ghost use Rattle.std.specs.Prelude.{◌≡◌, ◌≤◌, Some, map, length, take};
ghost use Rattle.notes.specs.Index.{servers};
ghost use Rattle.notes.specs.Message.{history_most};
ghost use Rattle.notes.specs.Record.{decode};
ghost use Rattle.memory.specs.Forms.{walk_of};

use notes::record;
use notes::record::Record;
use notes::record::raw::{Form, RecordBytes};
use notes::vector::Vector;

// Walks on to all of the records, where the first have passed with these counts: how many of them each server has, if each is well
// formed and next in turn. That a history can hold them is a clause of each walk: a type for short slices would be made at each call.
pub(crate) fn walk_on(
    records: &[RecordBytes],
    passed: usize,
    counted: Vector,
    form: Form,
) -> Option<Vector>
    requires { (length records.now ≤ history_most) × (passed ≤ length records.now) × (walk_of form.n (map decode (take passed records.now)) ≡ Some counted) }
    ensures { result ≡ walk_of form.n (map decode records.now) }
{
    let mut counts = counted.counts;
    for record in &records[passed..] {
        if !form.is_met(record) {
            return None;
        }
        let origin = usize::from(record[Record::ORIGIN]);
        let next = counts[origin] + 1;
        if record::raw::number_of(record) != next {
            return None;
        }
        counts[origin] = next;
    }
    Some(Vector { counts })
}

// Walks over the records of n servers from the first on.
pub fn walk(records: &[RecordBytes], n: u8) -> Option<Vector>
    requires { (length records.now ≤ history_most) × (n ≤ servers) }
    ensures { result ≡ walk_of n (map decode records.now) }
{
    walk_on(records, 0, Vector::zero(), Form::of(n))
}
