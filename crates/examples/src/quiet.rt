// A server in buffers of its own, and what examples need of one that is not told: writes one after the other, and messages.
ghost use Rattle.std.specs.Prelude.{◌≡◌, ◌≤◌, length, IfOk};

use calls::{message, start};
use memory::image::Image;
use memory::lent;
use memory::lent::Lent;
use notes::index::{PhoneId, ServerId};
use notes::vector::Vector;
use rules::answer::{Answer, Outcome, Refusal};
use rules::event::{Event, Request, What};
use rules::state::State;
use server::step;

// What the examples leave open.
pub(crate) const CELL: u16 = 300;

pub(crate) const TIME: u32 = 900;

// A server's state, and its two buffers.
#[derive(Drop)]
pub(crate) struct Server {
    pub(crate) state: State,
    pub(crate) history: [u8; Image::HISTORY_LEN],
    pub(crate) image: [u8; Image::LEN],
}

impl Server {
    // The buffers of no server, which is down.
    pub(crate) fn none() -> Server {
        Server {
            state: State::blank(false, 0, ServerId(0)),
            history: [0; Image::HISTORY_LEN],
            image: [0; Image::LEN],
        }
    }

    // The server anew, in the buffers as they are; where that is refused it stays what it was.
    pub(crate) fn start(&mut self, n: u8, own: u8) -> Outcome {
        self.state = start::start(n, ServerId(own), &mut self.history, &mut self.image)?;
        Ok(Answer::Done)
    }

    pub(crate) fn lent(&self) -> Lent<'_> {
        Lent {
            state: &self.state,
            history: &self.history,
            image: &self.image,
        }
    }

    // The step of an event at the server itself.
    pub(crate) fn step(&mut self, what: What, asked: Vector, message: &[u8]) -> Outcome {
        let e = Event {
            server: self.state.own,
            what,
        };
        let mut lent = lent::Server {
            state: self.state,
            history: &mut self.history,
            image: &mut self.image,
        };
        let outcome = step::step(&mut lent, e, asked, message);
        self.state = lent.state;
        outcome
    }

    // Phone 5 writes a value.
    pub(crate) fn write(&mut self, value: u32) -> Outcome {
        let what = What::Request(PhoneId(5), note(value));
        self.step(what, Vector::zero(), b"")
    }

    // And so many times.
    pub(crate) fn writes(&mut self, value: u32, count: usize) -> Result<(), Refusal> {
        for _ in 0..count {
            self.write(value)?;
        }
        Ok(())
    }

    // The server's own message, at the start of out.
    pub(crate) fn message<'a>(&self, out: &'a mut [u8]) -> Result<&'a [u8], Refusal>
        ensures { IfOk result (λ message. length message.now ≤ length out.old) }
    {
        let len = message::message(self.lent(), out)?;
        Ok(&out[..len])
    }
}

pub(crate) fn note(value: u32) -> Request
    ensures { result ≡ Request.Write 300 value 900 }
{
    Request::Write {
        cell: CELL,
        value,
        time: TIME,
    }
}

// The message of a server that starts and makes so many writes.
pub(crate) fn written<'a>(
    n: u8,
    own: u8,
    value: u32,
    count: usize,
    out: &'a mut [u8],
) -> Result<&'a [u8], Refusal>
    ensures { IfOk result (λ message. length message.now ≤ length out.old) }
{
    let mut server = Server::none();
    server.start(n, own)?;
    server.writes(value, count)?;
    server.message(out)
}
