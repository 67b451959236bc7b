// A phone's request served, and its reply as bytes.
ghost use Rattle.std.specs.Prelude.{◌≡◌, [], ◌≤◌, length};
ghost use Rattle.notes.specs.Vector.{vector_from};
ghost use Rattle.rules.specs.Answer.{verdict_reply};
ghost use Rattle.rules.specs.Memory.{phone as phone_of};
ghost use Rattle.rules.specs.declared.event.Request.TheVariants.{Read, Write};
ghost use Rattle.rules.specs.declared.event.What.TheVariants as what;
ghost use Rattle.ssaldorip.specs.Calls.{vector_size, read_size, lent, called, onto, call, happening, read_reply, write_reply};
ghost use Rattle.ssaldorip.specs.Forms.{reply_size, reply_bytes, answer_size, answer_bytes};

use crate::block;
use crate::call::{code, vector_in};
use memory::lent::Server;
use notes::index::{PhoneId, ServerId};
use notes::number::raw::Number;
use notes::vector;
use notes::vector::Vector;
use requests::{admit, request};
use rules::answer::{Answer, Refusal};
use rules::event::{Ask, Request};

// The value with its mark, and V behind it.
const VALUE: usize = 1;

const READ_VECTOR: usize = 5;

const READ_REPLY: usize = READ_VECTOR + Vector::SIZE;

// The room that a request's reply takes.
fn reply_len(q: Request) -> usize
    ensures { result ≡ reply_size q }
{
    match q {
        Request::Read { .. } => READ_REPLY,
        Request::Write { .. } => Vector::SIZE,
    }
}

// The reply to a read: 1 and the value, or five zeros, then V; to a write: V.
fn put_reply(reply: &mut [u8], answer: Answer)
    requires { answer_size answer ≤ length reply.old }
    ensures { reply.new ≡ onto (answer_bytes answer) reply.old }
{
    match answer {
        Answer::Read(value, v) => {
            u8::from(value.is_some()).put(reply, 0);
            value.unwrap_or(0).put(reply, VALUE);
            vector::raw::put_vector(reply, READ_VECTOR, v);
        }
        Answer::Written(v) => vector::raw::put_vector(reply, 0, v),
        Answer::Done => {}
    }
}

// A request served, with its reply. A reply with no room is told last, and nothing is done then.
fn requested(
    state: &mut [u8],
    history: &mut [u8],
    image: &mut [u8],
    server: u8,
    phone: u8,
    q: Request,
    asked: &[u8],
    reply: &mut [u8],
) -> Result<(), Refusal>
    ensures { called (verdict_reply result).number (lent state.new history.new image.new reply.new)
        ≡ call (length asked.now) (reply_size q) (happening server (what.Request (phone_of phone) q) (vector_from asked.now) []) (reply_bytes q)
        (lent state.old history.old image.old reply.old) }
{
    let ask = Ask {
        server: ServerId(server),
        phone: PhoneId(phone),
        request: q,
        vector: vector_in(asked)?,
    };
    let mut m = Server {
        state: block::state_of(state)?,
        history,
        image,
    };
    if reply.len() < reply_len(q) {
        admit::request_head(m.lent(), ask)?;
        return Err(Refusal::TooShort);
    }
    let answer = request::request(&mut m, ask)?;
    put_reply(reply, answer);
    block::put_state(state, &m.state);
    Ok(())
}

// Serves a phone's read of a cell.
#[unsafe(no_mangle)]
pub extern "C" fn ssaldorip_read(
    state: &mut [u8],
    history: &mut [u8],
    image: &mut [u8],
    server: u8,
    phone: u8,
    cell: u16,
    asked: &[u8],
    reply: &mut [u8],
) -> u32
    ensures { called result (lent state.new history.new image.new reply.new)
        ≡ call (length asked.now) read_size (happening server (what.Request (phone_of phone) (Read cell)) (vector_from asked.now) []) read_reply
        (lent state.old history.old image.old reply.old) }
{
    let q = Request::Read { cell };
    code(requested(state, history, image, server, phone, q, asked, reply))
}

// Serves a phone's write of a cell.
#[unsafe(no_mangle)]
pub extern "C" fn ssaldorip_write(
    state: &mut [u8],
    history: &mut [u8],
    image: &mut [u8],
    server: u8,
    phone: u8,
    cell: u16,
    value: u32,
    time: u32,
    asked: &[u8],
    reply: &mut [u8],
) -> u32
    ensures { called result (lent state.new history.new image.new reply.new)
        ≡ call (length asked.now) vector_size (happening server (what.Request (phone_of phone) (Write cell value time)) (vector_from asked.now) []) write_reply
        (lent state.old history.old image.old reply.old) }
{
    let q = Request::Write { cell, value, time };
    code(requested(state, history, image, server, phone, q, asked, reply))
}
