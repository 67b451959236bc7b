// An update: the writes of another server's message, in turn. The new ones are appended, and nothing is stored.
ghost use Rattle.std.specs.Prelude.{◌≡◌, ◌+◌, ◌≤◌, []};
ghost use Rattle.notes.specs.Message.{history_most};
ghost use Rattle.notes.specs.Reply.{first};
ghost use Rattle.memory.specs.Lent.{looked_at, server, Stays};
ghost use Rattle.rules.specs.Memory.{memory, holding};
ghost use Rattle.rules.specs.Answer.{plain_effect, verdict_refusal};
ghost use Rattle.rules.specs.Step.{suitable as suitable_of, arrival_refusals, update as update_of};

use crate::{here, take};
use memory::head;
use memory::lent::{Lent, Server};
use notes::index::ServerId;
use notes::message::Header;
use notes::record::Record;
use notes::vector::Vector;
use notes::{message, record};
use rules::answer::Refusal;
use rules::state::State;

// The message is right, of the server's own N, and from another server.
fn suitable(s: &State, message: &[u8]) -> bool
    ensures { result ≡ suitable_of (memory s.now [] []) message.now }
{
    match message::check(message) {
        Ok(said) => said.n == s.n && said.sender != s.own,
        Err(_) => false,
    }
}

// What a message is refused for before its writes are looked at.
fn arrival(m: Lent<'_>, at: ServerId, message: &[u8]) -> Result<(), Refusal>
    ensures { verdict_refusal result ≡ first (arrival_refusals (looked_at m.entry) at message.now) }
{
    head::up_head(m)?;
    here::here(m.state, at)?;
    if !suitable(m.state, message) {
        return Err(Refusal::Unsound);
    }
    Ok(())
}

// The state after. By `as`, since a usize becomes a u16 by no `From`; the clause says that it fits.
fn taken(s: State, new: usize, vector: Vector) -> State
    requires { s.held + new ≤ history_most }
    ensures { result ≡ holding (s.held + new) vector s }
{
    State {
        held: s.held + (new as u16),
        vector,
        ..s
    }
}

pub(crate) fn update(m: &mut Server<'_, '_>, at: ServerId, message: &[u8]) -> Result<(), Refusal>
    ensures stays { Stays m.old m.new }
    ensures effect { plain_effect result (server m.new) ≡ update_of (server m.old) at message.now }
{
    arrival(m.lent(), at, message)?;
    let body = &message[Header::LEN..];
    let records = record::raw::first_records(body, body.len() / Record::LEN);
    let s = m.state;
    let found = take::in_turn(records, s.own, s.vector)?;
    let held = usize::from(s.held);
    if Header::WRITES_MOST - held < found.new {
        return Err(Refusal::HistoryFull);
    }
    // Nothing new: no second pass over the records.
    if found.new != 0 {
        take::append(m.history, held, records, s.vector);
    }
    m.state = taken(s, found.new, found.vector);
    Ok(())
}
