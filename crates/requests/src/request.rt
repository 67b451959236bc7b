// A phone's request: served, or cut after some of its stores.
ghost use Rattle.std.specs.Prelude.{◌≡◌, length};
ghost use Rattle.memory.specs.Lent.{looked_at, server, Stays};
ghost use Rattle.rules.specs.Memory.{memory};
ghost use Rattle.rules.specs.Answer.{effect_of, plain_effect};
ghost use Rattle.rules.specs.Request.{plan, request as request_of, request_cut};
ghost use Rattle.laws.proofs.Passed.{Admitted};

use crate::write::Note;
use crate::{admit, read, write};
use memory::lent::{Lent, Server};
use notes::index::PhoneId;
use rules::answer::{Outcome, Refusal};
use rules::event::{Ask, Request};
use rules::state::State;

// A read or a write, served or refused.
pub fn request(m: &mut Server<'_, '_>, ask: Ask) -> Outcome
    ensures stays { Stays m.old m.new }
    ensures effect { effect_of result (server m.new) ≡ request_of (server m.old) ask.server ask.phone ask.request ask.vector }
{
    admit::request_head(m.lent(), ask)?;
    let phone = ask.phone;
    Ok(match ask.request {
        Request::Read { cell } => read::read(m, phone, cell),
        Request::Write { cell, value, time } => write::write(
            m,
            Note {
                phone,
                cell,
                value,
                time,
            },
        ),
    })
}

// The same, cut after k stores. A request that would be refused gets that refusal; a count above its stores is 1.
pub fn request_cut(
    s: &mut State,
    history: &[u8],
    image: &mut [u8],
    ask: Ask,
    k: u32,
) -> Result<(), Refusal>
    ensures { plain_effect result (memory s.new history.now image.new) ≡ request_cut (memory s.old history.now image.old) ask.server ask.phone ask.request k ask.vector }
{
    let lent = Lent {
        state: s,
        history,
        image,
    };
    admit::request_head(lent, ask)?;
    // `as`: the library has no From of u32 for usize.
    let k = k as usize;
    if stores_of(lent, ask.phone, ask.request) < k {
        return Err(Refusal::OutOfRange);
    }
    *s = match ask.request {
        Request::Read { cell } => read::read_cut(*s, history, image, ask.phone, cell, k),
        Request::Write { cell, value, time } => write::write_cut(
            *s,
            history,
            image,
            Note {
                phone: ask.phone,
                cell,
                value,
                time,
            },
            k,
        ),
    };
    Ok(())
}

// How many stores a request makes. That it is admitted stays a clause: the one caller has it from `request_head`.
fn stores_of(m: Lent<'_>, phone: PhoneId, q: Request) -> usize
    requires { Admitted (looked_at m) phone q }
    ensures { result ≡ length (plan (looked_at m.entry) phone q) }
{
    match q {
        Request::Read { cell } => read::read_stores(m, phone, cell),
        Request::Write { .. } => write::STORES,
    }
}
