// The stores of a write and of a checkpoint to the image: the first k of them, or all where k is at least their number.
ghost use Rattle.std.specs.Prelude.{◌≡◌, ◌+◌, ◌≤◌, ◌<◌, length, take};
ghost use Rattle.std.proofs.lemmas.List.Edits.{sets};
ghost use Rattle.notes.specs.Bytes.{to_bytes};
ghost use Rattle.notes.specs.Record.{record_size};
ghost use Rattle.notes.specs.Message.{history_most};
ghost use Rattle.rules.specs.Image.{image_size, log_most, stored, checkpoint_plan};
ghost use Rattle.requests.specs.Forms.{Room, write_bytes_plan};

use memory::image::Image;
use notes::number;
use notes::number::raw::Number;
use notes::record::Record;
use notes::record::raw::RecordBytes;

// The first k bytes of `from`, in order from a place on.
pub(crate) fn store_bytes(image: &mut [u8], place: usize, from: &[u8], k: usize)
    requires { place + length from.now ≤ length image.old }
    ensures { image.new ≡ sets image.old place (take k from.now) }
{
    let first = k.min(from.len());
    number::raw::put_bytes(image, place, &from[..first]);
}

// A count of the header. `as`: a count is a place in memory up to here, and the clause says that it fits.
fn put_count(image: &mut [u8], place: usize, count: usize)
    requires { (place + 2 ≤ length image.old) × (count ≤ history_most) }
    ensures { image.new ≡ sets image.old place (to_bytes 2 count) }
{
    (count as u16).put(image, place);
}

// A record's bytes at the log's next place, then the log count. The length stays a clause: the kit has no ghost field beside a `&mut`.
#[tactic(auto, using(crate::proofs::Storing::stored_cut))]
pub(crate) fn store_write(image: &mut [u8], bytes: &RecordBytes, logged: usize, k: usize)
    requires { (image_size ≤ length image.old) × (logged < log_most) }
    ensures { image.new ≡ stored image.old (take k (write_bytes_plan bytes.now logged)) }
{
    store_bytes(image, Image::LOG_AT + Record::LEN * logged, bytes, k);
    if k <= Record::LEN {
        return;
    }
    put_count(image, Image::LOG, logged + 1);
}

// The bytes of the history's records past those kept, then the checkpoint count, then log count 0. History, held and kept are what
// `checkpoint_plan` is of.
pub(crate) fn store_checkpoint(image: &mut [u8], history: &[u8], held: usize, kept: usize, k: usize)
    requires { Room held kept history.now image.old }
    ensures { image.new ≡ stored image.old (take k (checkpoint_plan history.now held kept)) }
{
    let old = Record::LEN * kept;
    let all = Record::LEN * held;
    store_bytes(image, Image::CHECKPOINT_AT + old, &history[old..all], k);
    if k <= all - old {
        return;
    }
    put_count(image, Image::CHECKPOINT, held);
    if k == all - old + 1 {
        return;
    }
    put_count(image, Image::LOG, 0);
}
