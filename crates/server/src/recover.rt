// Recovery from an image that suits the server: the checkpoint, then the log's records that it lacks.
ghost use Rattle.std.specs.Prelude.{◌≡◌, true};
ghost use Rattle.memory.specs.Lent.{looked_at, server, Stays};
ghost use Rattle.rules.specs.Memory.{blank as blank_of, holding, noting, no_reads};
ghost use Rattle.rules.specs.Sound.{recovered_history, recover as recover_of};
ghost use Rattle.server.specs.Forms.{Suited, Told, Recoverable, recovered_records};

use memory::image::Image;
use memory::image::raw::Headed;
use memory::lent::{Lent, Server};
use memory::raw;
use notes::number;
use notes::record::Record;
use notes::vector::Vector;
use rules::state::State;
use std::mem;

// The history's bytes: those of the checkpoint's records, of the log's last ones, and zeros.
fn put_recovered(history: &mut [u8], image: &[u8], counts: Image, lacked: usize)
    requires { Recoverable counts lacked history.old image.now }
    ensures { history.new ≡ recovered_history (recovered_records counts lacked image.now) history.old }
{
    let kept = Record::LEN * counts.checkpoint;
    let all = kept + Record::LEN * lacked;
    let log_from = Image::LOG_AT + Record::LEN * (counts.log - lacked);
    number::raw::put_bytes(
        history,
        0,
        &image[Image::CHECKPOINT_AT..Image::CHECKPOINT_AT + kept],
    );
    number::raw::put_bytes(
        history,
        kept,
        &image[log_from..log_from + Record::LEN * lacked],
    );
    history[all..Image::HISTORY_LEN].fill(0);
}

// An up state with no reads and so many writes that the checkpoint lacks.
fn woken(s: &State, held: u16, vector: Vector, lacked: u16) -> State
    ensures { result ≡ noting 0 no_reads lacked (holding held vector (blank_of true s.now.n s.now.own)) }
{
    State {
        held,
        vector,
        nwrites: lacked,
        ..State::blank(true, s.n, s.own)
    }
}

// What an image says to a recovery: how many records its checkpoint and its log hold, V of the checkpoint's writes, and how many
// of the log's they lack.
#[derive(Clone, Copy, PartialEq, Eq)]
pub struct Stored {
    pub counts: Image,
    pub vector: Vector,
    pub lacked: u16,
}

// The image is known to suit: the walk counts the checkpoint's records, and the log's last number says how many it lacks.
fn read_image(m: Lent<'_>) -> Stored
    requires { Suited (looked_at m) }
    ensures { Told (looked_at m.entry) result }
{
    let s = m.state;
    let image = Headed { bytes: m.image };
    let checkpoint = image.checkpoint();
    let Some(vector) = raw::walk(checkpoint, s.n) else {
        unreachable!()
    };
    Stored {
        counts: Image {
            checkpoint: checkpoint.len(),
            log: image.log().len(),
        },
        vector,
        lacked: image.newest(s.own).saturating_sub(vector.at(s.own)),
    }
}

pub(crate) fn recover(m: &mut Server<'_, '_>)
    requires { Suited (server m.old) }
    ensures stays { Stays m.old m.new }
    ensures effect { server m.new ≡ recover_of (server m.old) }
{
    let s = m.state;
    let found = read_image(m.lent());
    // Taken out while the image is lent beside it.
    // The kit has no rule for two fields lent at once.
    let history = mem::take(&mut m.history);
    put_recovered(
        history,
        m.lent().image,
        found.counts,
        usize::from(found.lacked),
    );
    m.history = history;
    // By `as`, since a usize becomes a u16 by no `From`; a checkpoint has at most 256 records.
    let held = found.counts.checkpoint as u16 + found.lacked;
    let own = found.vector.at(s.own) + found.lacked;
    m.state = woken(&s, held, found.vector.raised(s.own, own), found.lacked);
}
