// The calls beside the steps: starting anew, judging, status, look-up, the server's own message.
ghost use Rattle.std.specs.Prelude.{◌≡◌, [], ◌∷◌};
ghost use Rattle.rules.specs.Answer.{verdict_reply};
ghost use Rattle.rules.specs.Calls.{start as start_of, stands_at, look_up_refusal};
ghost use Rattle.rules.specs.Writes.{server as server_of};
ghost use Rattle.ssaldorip.specs.Calls.{lent, called, plainly, left, put, fills, status_in, message_in, judging, place_or_number};

use crate::block;
use crate::call::code;
use calls::{judge, look_up, message, start, status};
use memory::lent::Lent;
use notes::index::ServerId;
use rules::answer::Refusal;

// The bytes of a status, and the second one where no phone is in CR.
const STATUS_REPLY: usize = 2;

const NOBODY: u8 = 255;

// A server anew in its block, its history and its image.
fn started(
    n: u8,
    own: u8,
    state: &mut [u8],
    history: &mut [u8],
    image: &mut [u8],
) -> Result<(), Refusal>
    ensures { called (verdict_reply result).number (lent state.new history.new image.new [])
        ≡ plainly (λ m. start_of n (server_of own) m.history m.image) (lent state.old history.old image.old []) }
{
    if state.len() < block::LEN {
        return Err(Refusal::TooShort);
    }
    let s = start::start(n, ServerId(own), history, image)?;
    block::put_state(state, &s);
    Ok(())
}

// Starts a server anew: an up state, a zeroed history, a fresh image.
#[unsafe(no_mangle)]
pub extern "C" fn ssaldorip_start(
    n: u8,
    own: u8,
    state: &mut [u8],
    history: &mut [u8],
    image: &mut [u8],
) -> u32
    ensures { called result (lent state.new history.new image.new [])
        ≡ plainly (λ m. start_of n (server_of own) m.history m.image) (lent state.old history.old image.old []) }
{
    code(started(n, own, state, history, image))
}

// Whether the state in a block is sound with its history and image.
#[tactic(auto, using(crate::proofs::Told::judging_told))]
fn judged(state: &[u8], history: &[u8], image: &[u8]) -> Result<(), Refusal>
    ensures { (verdict_reply result).number ≡ judging (lent state.now history.now image.now []) }
{
    let state = &block::state_of(state)?;
    judge::judge(Lent {
        state,
        history,
        image,
    })
}

// Whether the state is sound with its history and image, up or down.
#[unsafe(no_mangle)]
pub extern "C" fn ssaldorip_judge(state: &[u8], history: &[u8], image: &[u8]) -> u32
    ensures { result ≡ judging (lent state.now history.now image.now []) }
{
    code(judged(state, history, image))
}

// Two bytes of a reply, where there is room for them.
fn put_status(reply: &mut [u8], count: u8, lowest: u8) -> Result<(), Refusal>
    ensures { left (verdict_reply result).number reply.new ≡ put (count ∷ lowest ∷ []) reply.old }
{
    if reply.len() < STATUS_REPLY {
        return Err(Refusal::TooShort);
    }
    reply[0] = count;
    reply[1] = lowest;
    Ok(())
}

// The status of the server of a block, in a reply.
#[tactic(auto, using(crate::proofs::Told::fills_told))]
fn status_of(state: &[u8], history: &[u8], image: &[u8], reply: &mut [u8]) -> Result<(), Refusal>
    ensures { left (verdict_reply result).number reply.new ≡ fills status_in (lent state.now history.now image.now reply.old) }
{
    let state = &block::state_of(state)?;
    let found = status::status(Lent {
        state,
        history,
        image,
    })?;
    match found {
        Some(phones) => put_status(reply, phones.count, phones.lowest.0),
        None => put_status(reply, 0, NOBODY),
    }
}

// How many phones are in CR, and the lowest numbered of them.
#[unsafe(no_mangle)]
pub extern "C" fn ssaldorip_status(
    state: &[u8],
    history: &[u8],
    image: &[u8],
    reply: &mut [u8],
) -> u32
    ensures { left result reply.new ≡ fills status_in (lent state.now history.now image.now reply.old) }
{
    code(status_of(state, history, image, reply))
}

// Where in the image the write's record stands; 0 where it is not there, or the refusal's number, which no place is.
#[unsafe(no_mangle)]
pub extern "C" fn ssaldorip_look_up(image: &[u8], origin: u8, number: u32) -> u32
    ensures { result ≡ place_or_number (look_up_refusal image.now (server_of origin)) (stands_at image.now (server_of origin) number) }
{
    match look_up::stands_at(image, ServerId(origin), number) {
        // By `as`, since a usize becomes a u32 by no `From`; a place in the image fits.
        Ok(Some(place)) => place as u32,
        Ok(None) => 0,
        Err(refusal) => code(Err(refusal)),
    }
}

// The message of the server of a block, in an output.
#[tactic(auto, using(crate::proofs::Told::fills_told))]
fn message_of(state: &[u8], history: &[u8], image: &[u8], out: &mut [u8]) -> Result<(), Refusal>
    ensures { left (verdict_reply result).number out.new ≡ fills message_in (lent state.now history.now image.now out.old) }
{
    let state = &block::state_of(state)?;
    message::message(
        Lent {
            state,
            history,
            image,
        },
        out,
    )?;
    Ok(())
}

// The server's own update message into an output; its length stands in its header.
#[unsafe(no_mangle)]
pub extern "C" fn ssaldorip_message(
    state: &[u8],
    history: &[u8],
    image: &[u8],
    out: &mut [u8],
) -> u32
    ensures { left result out.new ≡ fills message_in (lent state.now history.now image.now out.old) }
{
    code(message_of(state, history, image, out))
}
