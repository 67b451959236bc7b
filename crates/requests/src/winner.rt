// The value of a cell's winner among the history's records, by one walk.
ghost use Rattle.std.specs.Prelude.{◌≡◌, map};
ghost use Rattle.notes.specs.Record.{decode, beats as beats_by};
ghost use Rattle.rules.specs.Writes.{winner as winner_in};
ghost use Rattle.requests.specs.Forms.{winner_of, winner_value};

use notes::number::raw::Number;
use notes::record;
use notes::record::Record;
use notes::record::raw::RecordBytes;

// Whether a record beats another of its cell.
fn beats(a: &RecordBytes, b: &RecordBytes) -> bool
    ensures { result ≡ beats_by (decode a.now) (decode b.now) }
{
    record::raw::decoded(a).beats(record::raw::decoded(b))
}

// The winner's value, if the cell has a write; of equals the first wins.
pub(crate) fn winner(records: &[RecordBytes], cell: u16) -> Option<u32>
    ensures { winner_of result ≡ winner_value (winner_in cell (map decode records.now)) }
{
    let best = records
        .iter()
        .filter(|record| u16::at(*record, Record::CELL) == cell)
        .reduce(|best, record| if beats(record, best) { record } else { best })?;
    Some(u32::at(best, Record::VALUE))
}
