// The steps of a server that reply nothing but their number: its state is a block.
ghost use Rattle.std.specs.Prelude.{◌≡◌, [], length};
ghost use Rattle.notes.specs.Vector.{zeros, vector_from};
ghost use Rattle.rules.specs.Answer.{verdict_reply};
ghost use Rattle.rules.specs.Memory.{phone as phone_of};
ghost use Rattle.rules.specs.declared.event.Request.TheVariants.{Read, Write};
ghost use Rattle.rules.specs.declared.event.What.TheVariants as what;
ghost use Rattle.ssaldorip.specs.Calls.{lent, called, call, happening, no_reply, plainly};

use crate::block;
use crate::call::{code, vector_in};
use memory::lent::Server;
use notes::index::{PhoneId, ServerId};
use notes::vector::Vector;
use rules::answer::Refusal;
use rules::event::{Event, Request, What};
use server::step;

// The vector of an event that carries none.
const ZEROS: [u8; Vector::SIZE] = [0; Vector::SIZE];

// An event at the server of a block, told in the block, the history and the image; nothing is replied but its number.
fn stepped(
    state: &mut [u8],
    history: &mut [u8],
    image: &mut [u8],
    server: u8,
    what: What,
    asked: &[u8],
    message: &[u8],
) -> Result<(), Refusal>
    ensures { called (verdict_reply result).number (lent state.new history.new image.new [])
        ≡ call (length asked.now) 0 (happening server what (vector_from asked.now) message.now) no_reply
        (lent state.old history.old image.old []) }
{
    let asked = vector_in(asked)?;
    let mut m = Server {
        state: block::state_of(state)?,
        history,
        image,
    };
    let e = Event {
        server: ServerId(server),
        what,
    };
    step::step(&mut m, e, asked, message)?;
    block::put_state(state, &m.state);
    Ok(())
}

// Takes another server's update: its new writes behind those held. Nothing is stored.
#[tactic(auto, using(crate::proofs::Called::no_vector))]
#[unsafe(no_mangle)]
pub extern "C" fn ssaldorip_update(
    state: &mut [u8],
    history: &mut [u8],
    image: &mut [u8],
    server: u8,
    message: &[u8],
) -> u32
    ensures { called result (lent state.new history.new image.new [])
        ≡ plainly (happening server what.Update zeros message.now) (lent state.old history.old image.old []) }
{
    code(stepped(state, history, image, server, What::Update, &ZEROS, message))
}

// A plain cut: the state is down, and nothing is stored.
#[tactic(auto, using(crate::proofs::Called::no_vector))]
#[unsafe(no_mangle)]
pub extern "C" fn ssaldorip_cut(
    state: &mut [u8],
    history: &mut [u8],
    image: &mut [u8],
    server: u8,
) -> u32
    ensures { called result (lent state.new history.new image.new [])
        ≡ plainly (happening server what.Cut zeros []) (lent state.old history.old image.old []) }
{
    code(stepped(state, history, image, server, What::Cut, &ZEROS, b""))
}

// Brings a down server back from its image.
#[tactic(auto, using(crate::proofs::Called::no_vector))]
#[unsafe(no_mangle)]
pub extern "C" fn ssaldorip_recover(
    state: &mut [u8],
    history: &mut [u8],
    image: &mut [u8],
    server: u8,
) -> u32
    ensures { called result (lent state.new history.new image.new [])
        ≡ plainly (happening server what.Recovery zeros []) (lent state.old history.old image.old []) }
{
    code(stepped(state, history, image, server, What::Recovery, &ZEROS, b""))
}

// A read cut after so many of its stores.
#[unsafe(no_mangle)]
pub extern "C" fn ssaldorip_read_cut(
    state: &mut [u8],
    history: &mut [u8],
    image: &mut [u8],
    server: u8,
    phone: u8,
    cell: u16,
    asked: &[u8],
    stores: u32,
) -> u32
    ensures { called result (lent state.new history.new image.new [])
        ≡ call (length asked.now) 0 (happening server (what.RequestCut (phone_of phone) (Read cell) stores) (vector_from asked.now) []) no_reply
        (lent state.old history.old image.old []) }
{
    let q = Request::Read { cell };
    let what = What::RequestCut(PhoneId(phone), q, stores);
    code(stepped(state, history, image, server, what, asked, b""))
}

// A write cut after so many of its stores.
#[unsafe(no_mangle)]
pub extern "C" fn ssaldorip_write_cut(
    state: &mut [u8],
    history: &mut [u8],
    image: &mut [u8],
    server: u8,
    phone: u8,
    cell: u16,
    value: u32,
    time: u32,
    asked: &[u8],
    stores: u32,
) -> u32
    ensures { called result (lent state.new history.new image.new [])
        ≡ call (length asked.now) 0 (happening server (what.RequestCut (phone_of phone) (Write cell value time) stores) (vector_from asked.now) []) no_reply
        (lent state.old history.old image.old []) }
{
    let q = Request::Write { cell, value, time };
    let what = What::RequestCut(PhoneId(phone), q, stores);
    code(stepped(state, history, image, server, what, asked, b""))
}
