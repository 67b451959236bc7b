// A read: served, or cut after some of the stores of the checkpoint that it takes where one is due.
ghost use Rattle.std.specs.Prelude.{◌≡◌, Ok, [], ℕ, ◌<◌, length, take};
ghost use Rattle.notes.specs.Index.{phones};
ghost use Rattle.memory.specs.Lent.{looked_at, server, Stays};
ghost use Rattle.rules.specs.declared.event.Request.TheVariants.{Read};
ghost use Rattle.rules.specs.Memory.{in_set, with_phone, memory};
ghost use Rattle.rules.specs.Image.{stored, checkpoint_count};
ghost use Rattle.rules.specs.Answer.{effect_of, finished};
ghost use Rattle.rules.specs.Request.{noted as noted_of, cleared as cleared_of, due as due_of, plan, ready as ready_of, served, cut_after};
ghost use Rattle.laws.proofs.Passed.{Admitted};
ghost use Rattle.requests.specs.Forms.{Room};

use crate::{stores, winner};
use memory::image::raw::Whole;
use memory::lent::{Lent, Server};
use notes::index::PhoneId;
use notes::record;
use notes::record::Record;
use rules::answer::Answer;
use rules::state::{ReadTable, State};
use std::mem;

#[tactic(auto, unfolding(rules::specs::Request::cleared))]
fn cleared(s: State) -> State
    ensures { result ≡ cleared_of s }
{
    State {
        cr: 0,
        rw: ReadTable {
            counts: [0; ReadTable::LEN],
        },
        nwrites: 0,
        ..s
    }
}

// A phone that reads: one of the sixty-four.
#[derive(Clone, Copy)]
struct Phone {
    id: PhoneId,
    ghost known: { id.0 < phones },
}

impl Phone {
    #[tactic(auto, unfolding(rules::specs::Memory::in_set))]
    fn is_in(self, cr: u64) -> bool
        ensures { result ≡ in_set cr self.id }
    {
        (cr >> self.id.0) % 2 == 1
    }

    fn added_to(self, cr: u64) -> u64
        ensures { result ≡ with_phone cr self.id }
    {
        cr | (1u64 << self.id.0)
    }

    // A second read with RW above zero takes a checkpoint, whatever its cell is.
    fn is_due(self, s: &State) -> bool
        ensures { (cell : ℕ) → result ≡ due_of (memory s.now [] []) self.id (Read cell) }
    {
        self.is_in(s.cr) && 0 < s.rw.at(self.id)
    }

    fn noted(self, s: State) -> State
        ensures { (cell : ℕ) → result ≡ noted_of s self.id (Read cell) }
    {
        if self.is_in(s.cr) {
            return s;
        }
        State {
            cr: self.added_to(s.cr),
            rw: s.rw.with(self.id, s.nwrites),
            ..s
        }
    }

    fn ready(self, s: State) -> State
        ensures { (cell : ℕ) → result ≡ ready_of (memory s [] []) self.id (Read cell) }
    {
        let noted = self.noted(s);
        if self.is_due(&s) {
            cleared(noted)
        } else {
            noted
        }
    }

    // The first k of a read's stores, or all where k is at least their number.
    fn store_due(self, s: &State, history: &[u8], image: &mut [u8], k: usize)
        requires { Room s.now.held (checkpoint_count image.old) history.now image.old }
        ensures { (cell : ℕ) → image.new ≡ stored image.old (take k (plan (memory s.now history.now image.old) self.id (Read cell))) }
    {
        if !self.is_due(s) {
            return;
        }
        let kept = Whole { bytes: image }.counts().checkpoint;
        stores::store_checkpoint(image, history, usize::from(s.held), kept, k);
    }
}

// The read served: all its stores, the winner's value, and the read noted. That it is admitted stays a clause, here and in `write`:
// the kit has no ghost field beside a `&mut`.
pub(crate) fn read(m: &mut Server<'_, '_>, phone: PhoneId, cell: u16) -> Answer
    requires { Admitted (server m.old) phone (Read cell) }
    ensures stays { Stays m.old m.new }
    ensures effect { effect_of (Ok result) (server m.new) ≡ served (server m.old) phone (Read cell) }
{
    let phone = Phone { id: phone };
    let held = usize::from(m.state.held);
    // Taken out while both buffers are lent: the kit has no rule for two fields lent at once.
    let history = mem::take(&mut m.history);
    phone.store_due(&m.state, history, m.image, Record::LEN * held + 2);
    let value = winner::winner(record::raw::first_records(history, held), cell);
    m.history = history;
    m.state = phone.ready(m.state);
    Answer::Read(value, m.state.vector)
}

// The read cut after k stores.
pub(crate) fn read_cut(
    s: State,
    history: &[u8],
    image: &mut [u8],
    phone: PhoneId,
    cell: u16,
    k: usize,
) -> State
    requires { Admitted (memory s history.now image.old) phone (Read cell) }
    ensures { finished (memory result history.now image.new) ≡ cut_after (memory s history.now image.old) phone (Read cell) k }
{
    Phone { id: phone }.store_due(&s, history, image, k);
    s.down()
}

// How many stores a read makes: those of a checkpoint where one is due.
pub(crate) fn read_stores(m: Lent<'_>, phone: PhoneId, cell: u16) -> usize
    requires { Room m.state.now.held (checkpoint_count m.image.now) m.history.now m.image.now × (phone.0 < phones) }
    ensures { result ≡ length (plan (looked_at m.entry) phone (Read cell)) }
{
    let phone = Phone { id: phone };
    if !phone.is_due(m.state) {
        return 0;
    }
    let kept = Whole { bytes: m.image }.counts().checkpoint;
    Record::LEN * (usize::from(m.state.held) - kept) + 2
}
