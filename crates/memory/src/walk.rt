// Walks over records that compare them: with a checkpoint, with a log, with the numbers of a run.
ghost use Rattle.std.specs.Prelude.{◌≡◌, ◌*◌, ◌≤◌, ◌∷◌, [], map, length};
ghost use Rattle.notes.specs.Record.{record_size, decode, records};
ghost use Rattle.notes.specs.Message.{history_most};
ghost use Rattle.notes.specs.Lists.{same as same_bytes};
ghost use Rattle.rules.specs.Writes.{writes_of, same_records};
ghost use Rattle.rules.specs.Sound.{is_last};
ghost use Rattle.memory.specs.Forms.{own_run};

use notes::index::ServerId;
use notes::record;
use notes::record::Record;
use notes::record::raw::{Form, RecordBytes};

// Two runs of bytes are the same. No exit inside: the loop becomes vector instructions in the walk itself. The library's `==` is a call
// beside the walk, with which a record is visited more often than `tests/passes` allows.
fn equal(a: &[u8], b: &[u8]) -> bool
    requires { length a.now ≡ length b.now }
    ensures { result ≡ same_bytes a.now b.now }
{
    let mut equal = true;
    let mut i = 0;
    while i < a.len() {
        equal = equal & (a[i] == b[i]);
        i += 1;
    }
    equal
}

// Two records are the same where their bytes are.
fn same(a: &RecordBytes, b: &RecordBytes) -> bool
    ensures { result ≡ same_records (decode a.now ∷ []) (decode b.now ∷ []) }
{
    equal(a, b)
}

// So many records of a checkpoint are the first of a history. Their bytes are compared as they lie, which is three times as fast as
// record by record.
pub(crate) fn is_first(checkpoint: &[u8], history: &[u8], count: usize) -> bool
    requires { (record_size * count ≤ length checkpoint.now) × (record_size * count ≤ length history.now) }
    ensures { result ≡ same_records (records count checkpoint.now) (records count history.now) }
{
    let size = Record::LEN * count;
    equal(&checkpoint[..size], &history[..size])
}

// The records of a log are the last of the history's own writes: compared from the end backwards.
pub(crate) fn is_last(log: &[RecordBytes], history: &[RecordBytes], own: ServerId) -> bool
    ensures { result ≡ is_last (map decode log.now) (writes_of own (map decode history.now)) }
{
    let mut left = log;
    for record in history.iter().rev() {
        let Some((last, before)) = left.split_last() else {
            return true;
        };
        if record[Record::ORIGIN] == own.0 {
            if !same(last, record) {
                return false;
            }
            left = before;
        }
    }
    left.is_empty()
}

// The records are each well formed, of origin own, and numbered k + 1, k + 2 and so on.
pub(crate) fn own_run(records: &[RecordBytes], form: Form, own: ServerId, k: u16) -> bool
    requires { (length records.now ≤ history_most) × (k ≤ history_most) }
    ensures { result ≡ own_run form.n own k (map decode records.now) }
{
    // Counted by hand: `enumerate` counts in usize, so that k and each record's number would be widened.
    let mut next = k;
    for record in records {
        next += 1;
        if !form.is_met(record)
            || record[Record::ORIGIN] != own.0
            || record::raw::number_of(record) != next
        {
            return false;
        }
    }
    true
}
