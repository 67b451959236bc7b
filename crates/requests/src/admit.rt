// What a request is refused for, in order.
ghost use Rattle.std.specs.Prelude.{◌≡◌, List, [], ℕ};
ghost use Rattle.notes.specs.Reply.{first};
ghost use Rattle.memory.specs.Lent.{looked_at};
ghost use Rattle.rules.specs.Memory.{memory};
ghost use Rattle.rules.specs.Answer.{verdict_refusal};
ghost use Rattle.rules.specs.Request.{cell_of, is_write, out_of_range, full_refusals, request_refusals};

use memory::head;
use memory::image::Image;
use memory::image::raw::Whole;
use memory::lent::Lent;
use notes::index::PhoneId;
use notes::message::Header;
use notes::record::Record;
use rules::answer::Refusal;
use rules::event::{Ask, Request};
use rules::state::State;

fn cell_of(q: Request) -> u16
    ensures { result ≡ cell_of q }
{
    match q {
        Request::Read { cell } | Request::Write { cell, .. } => cell,
    }
}

fn is_write(q: Request) -> bool
    ensures { result ≡ is_write q }
{
    matches!(q, Request::Write { .. })
}

// The event's server isn't the state's own, or phone, cell or vector is out of range.
fn out_of_range(s: &State, ask: Ask) -> bool
    ensures { result ≡ out_of_range (memory s.now [] []) ask.server ask.phone ask.request ask.vector }
{
    ask.server != s.own
        || PhoneId::COUNT <= ask.phone.0
        || Record::CELLS <= cell_of(ask.request)
        || !ask.vector.zero_from(s.n)
}

// A write finds the history or the log full; the history's bytes do not matter.
fn full(s: &State, q: Request, image: Whole<'_>) -> Result<(), Refusal>
    ensures { (h : List ℕ) → verdict_refusal result ≡ first (full_refusals (memory s.now h image.entry.bytes.now) q) }
{
    if !is_write(q) {
        return Ok(());
    }
    if Header::WRITES_MOST <= usize::from(s.held) {
        return Err(Refusal::HistoryFull);
    }
    if Image::LOG_MOST <= image.counts().log {
        return Err(Refusal::LogFull);
    }
    Ok(())
}

// The first refusal of a request, for a caller whose own test comes after it.
pub fn request_head(m: Lent<'_>, ask: Ask) -> Result<(), Refusal>
    ensures { verdict_refusal result ≡ first (request_refusals (looked_at m.entry) ask.server ask.phone ask.request ask.vector) }
{
    head::up_head(m)?;
    let s = m.state;
    if out_of_range(s, ask) {
        return Err(Refusal::OutOfRange);
    }
    if s.vector.is_behind(ask.vector) {
        return Err(Refusal::NotYet);
    }
    full(s, ask.request, Whole { bytes: m.image })
}
