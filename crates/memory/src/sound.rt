// Whether a state, a history and an image are sound. Nothing is written to find it out.
ghost use Rattle.std.specs.Prelude.{◌≡◌, ◌≤◌, Some, map, length, take};
ghost use Rattle.notes.specs.Record.{decode};
ghost use Rattle.rules.specs.Image.{history_size, image_size, checkpoint_count, checkpoint, log};
ghost use Rattle.rules.specs.Sound.{sound_up, sound as sound_of};
ghost use Rattle.memory.specs.Forms.{Held, Shown, walk_of, tail, history_test, image_test};
ghost use Rattle.memory.specs.Lent.{looked_at};

use crate::image::Image;
use crate::image::raw::{Headed, Whole};
use crate::lent::Lent;
use crate::{raw, reads, walk};
use notes::message::Header;
use notes::record;
use notes::record::raw::{Form, RecordBytes};
use notes::vector::Vector;
use rules::state::State;

// The history's records are well formed and in turn, and V counts them: the walk goes on behind the first, which have passed
// with these counts.
fn history_ok(
    s: &State,
    history: &[RecordBytes],
    passed: usize,
    counted: Vector,
    form: Form,
) -> bool
    requires { Held s.now history.now × (form.n ≡ s.now.n) × (passed ≤ length history.now) × (walk_of form.n (map decode (take passed history.now)) ≡ Some counted) }
    ensures { result ≡ history_test s.now (map decode history.now) }
{
    raw::walk_on(history, passed, counted, form) == Some(s.vector)
}

// The checkpoint is the first of the history, and the log the last of its own writes, of which so many stand past the
// checkpoint.
fn image_ok(m: Lent<'_>, history: &[RecordBytes], image: Headed<'_>, past: usize) -> bool
    requires { Shown m.state.now.held m.history.now history.now × (checkpoint_count image.bytes.now ≤ length history.now) × (past ≡ tail m.state.now.own (checkpoint image.bytes.now) (map decode history.now)) }
    ensures { result ≡ image_test m.entry.state.now (map decode history.now) (checkpoint image.entry.bytes.now) (log image.entry.bytes.now) }
{
    let s = m.state;
    let kept = image.checkpoint().len();
    let log = image.log();
    walk::is_first(&image.bytes[Image::CHECKPOINT_AT..], m.history, kept)
        && past <= log.len()
        && usize::from(s.nwrites) == past
        && walk::is_last(log, history, s.own)
}

// One walk over the history, which rests where the checkpoint ends: what V counts at own more than is counted there are the
// own writes past the checkpoint. The two lengths are a clause, as of its one caller below.
fn sound_up(m: Lent<'_>) -> bool
    requires { (history_size ≤ length m.history.now) × (image_size ≤ length m.image.now) }
    ensures { result ≡ sound_up (looked_at m.entry) }
{
    let s = m.state;
    let whole = Whole { bytes: m.image };
    let Some(image) = whole.headed(s.n, s.own) else {
        return false;
    };
    let held = usize::from(s.held);
    let kept = whole.counts().checkpoint;
    if Header::WRITES_MOST < held || held < kept {
        return false;
    }
    let history = record::raw::first_records(m.history, held);
    let Some(counted) = raw::walk(&history[..kept], s.n) else {
        return false;
    };
    if !history_ok(s, history, kept, counted, Form::of(s.n)) {
        return false;
    }
    let past = usize::from(s.vector.at(s.own) - counted.at(s.own));
    image_ok(m, history, image, past) && reads::reads_ok(s)
}

// The two lengths stay a clause: `head::sound_head` alone asks, behind its test of them, and a type for both would be made there once.
pub(crate) fn is_sound(m: Lent<'_>) -> bool
    requires { (history_size ≤ length m.history.now) × (image_size ≤ length m.image.now) }
    ensures { result ≡ sound_of (looked_at m.entry) }
{
    let s = m.state;
    if s.up {
        return sound_up(m);
    }
    let image = Whole { bytes: m.image };
    reads::is_zero(s) && image.suited(s.n, s.own).is_some()
}
