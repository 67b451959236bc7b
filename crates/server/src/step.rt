// The step: an event at a server, the vector that a request carries, the message that an update brings.
ghost use Rattle.std.specs.Prelude.{◌≡◌};
ghost use Rattle.memory.specs.Lent.{server, Stays};
ghost use Rattle.rules.specs.Answer.{effect_of, plain_effect};
ghost use Rattle.rules.specs.Request.{request_cut as request_cut_of};
ghost use Rattle.rules.specs.Step.{step as step_of};

use crate::{cut, recovery, update};
use memory::lent::Server;
use notes::index::{PhoneId, ServerId};
use notes::vector::Vector;
use requests::request;
use rules::answer::{Answer, Outcome, Refusal};
use rules::event::{Ask, Event, Request, What};
use std::mem;

// A request as it comes to a server, with the vector that it carries.
fn ask(server: ServerId, phone: PhoneId, request: Request, vector: Vector) -> Ask
    ensures { result ≡ record { server = server; phone = phone; request = request; vector = vector } }
{
    Ask {
        server,
        phone,
        request,
        vector,
    }
}

// A request cut after k stores, at a server that a step changes.
fn request_cut(m: &mut Server<'_, '_>, ask: Ask, k: u32) -> Result<(), Refusal>
    ensures stays { Stays m.old m.new }
    ensures effect { plain_effect result (server m.new) ≡ request_cut_of (server m.old) ask.server ask.phone ask.request k ask.vector }
{
    // Taken out while all three are lent: the kit has no rule for two fields lent at once.
    let mut state = m.state;
    let history = mem::take(&mut m.history);
    let told = request::request_cut(&mut state, history, m.image, ask, k);
    m.history = history;
    m.state = state;
    told
}

// One event at a server: what it answers, and what it leaves in state, history and image.
pub fn step(m: &mut Server<'_, '_>, e: Event, asked: Vector, message: &[u8]) -> Outcome
    ensures stays { Stays m.old m.new }
    ensures effect { effect_of result (server m.new) ≡ step_of (server m.old) e asked message.now }
{
    let at = e.server;
    match e.what {
        What::Request(phone, q) => return request::request(m, ask(at, phone, q, asked)),
        What::RequestCut(phone, q, k) => request_cut(m, ask(at, phone, q, asked), k)?,
        What::Cut => cut::cut(m, at)?,
        What::Update => update::update(m, at, message)?,
        What::Recovery => recovery::recovery(m, at)?,
    }
    Ok(Answer::Done)
}
