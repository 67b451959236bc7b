// A write: the record of a new write, its stores, and the state after it.
ghost use Rattle.std.specs.Prelude.{◌≡◌, Ok, ◌+◌};
ghost use Rattle.memory.specs.Lent.{server, Stays};
ghost use Rattle.rules.specs.Memory.{noting, holding, memory};
ghost use Rattle.rules.specs.Answer.{effect_of, finished};
ghost use Rattle.rules.specs.Request.{new_vector, served, cut_after};
ghost use Rattle.laws.proofs.Passed.{Admitted};
ghost use Rattle.requests.specs.Forms.{Small, Stored, writing};

use crate::stores;
use memory::image::raw::Whole;
use memory::lent::Server;
use notes::index::PhoneId;
use notes::number;
use notes::record::Record;
use notes::record::raw::RecordBytes;
use notes::vector::Vector;
use rules::answer::Answer;
use rules::state::State;
use std::mem;

// The stores of a write: a record's bytes, and a count.
pub(crate) const STORES: usize = Record::LEN + 1;

// What a phone writes.
#[derive(Clone, Copy)]
pub(crate) struct Note {
    pub phone: PhoneId,
    pub cell: u16,
    pub value: u32,
    pub time: u32,
}

// V with V[own] raised by one.
#[tactic(auto, unfolding(rules::specs::Request::new_vector))]
fn new_vector(s: &State) -> Vector
    requires { Small s.now }
    ensures { result ≡ new_vector s.now }
{
    s.vector.raised(s.own, s.vector.at(s.own) + 1)
}

// One write more, and one more since the checkpoint.
fn one_more(s: State) -> State
    requires { Small s }
    ensures { result ≡ noting s.cr s.rw (s.nwrites + 1) (holding (s.held + 1) (new_vector s) s) }
{
    State {
        held: s.held + 1,
        vector: new_vector(&s),
        nwrites: s.nwrites + 1,
        ..s
    }
}

// The first k of a write's stores, or all where k is at least their number, and the record's bytes. Of the history only its
// statement speaks.
fn store_new(s: &State, _history: &[u8], image: &mut [u8], note: Note, k: usize) -> RecordBytes
    requires { Admitted (memory s.now _history.now image.old) note.phone (writing note) }
    ensures { Stored (memory s.now _history.now image.old) note k result image.new }
{
    let record = Record {
        origin: s.own,
        phone: note.phone,
        cell: note.cell,
        value: note.value,
        time: note.time,
        stamp: new_vector(s),
    };
    let bytes = record.to_bytes();
    let logged = Whole { bytes: image }.counts().log;
    stores::store_write(image, &bytes, logged, k);
    bytes
}

// The write served: all its stores, then the history.
pub(crate) fn write(m: &mut Server<'_, '_>, note: Note) -> Answer
    requires { Admitted (server m.old) note.phone (writing note) }
    ensures stays { Stays m.old m.new }
    ensures effect { effect_of (Ok result) (server m.new) ≡ served (server m.old) note.phone (writing note) }
{
    // Taken out while both buffers are lent: the kit has no rule for two fields lent at once.
    let history = mem::take(&mut m.history);
    let bytes = store_new(&m.state, history, m.image, note, STORES);
    number::raw::put_bytes(history, Record::LEN * usize::from(m.state.held), &bytes);
    m.history = history;
    m.state = one_more(m.state);
    Answer::Written(m.state.vector)
}

// The write cut after k stores.
pub(crate) fn write_cut(s: State, history: &[u8], image: &mut [u8], note: Note, k: usize) -> State
    requires { Admitted (memory s history.now image.old) note.phone (writing note) }
    ensures { finished (memory result history.now image.new) ≡ cut_after (memory s history.now image.old) note.phone (writing note) k }
{
    store_new(&s, history, image, note, k);
    s.down()
}
