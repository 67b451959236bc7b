// Status: how many phones are in CR, and the lowest numbered one.
ghost use Rattle.std.specs.Prelude.{◌≡◌, Ok, ◌∷◌, length};
ghost use Rattle.memory.specs.Lent.{looked_at};
ghost use Rattle.notes.specs.Reply.{done};
ghost use Rattle.rules.specs.Memory.{members};
ghost use Rattle.rules.specs.Answer.{status_reply};
ghost use Rattle.rules.specs.Calls.{lowest as lowest_of, status as status_of};

use memory::head;
use memory::lent::Lent;
use notes::index::PhoneId;
use rules::answer::{Phones, Refusal};

// The zeros below the lowest one of CR are the lowest phone's number; where all 64 digits are zeros there is none.
fn phones_in(cr: u64) -> Option<Phones>
    ensures { status_reply (Ok result) ≡ done (length (members cr) ∷ lowest_of (members cr)) }
{
    // By `as`, since a u32 becomes a u8 by no `From`; both counts are at most 64.
    let lowest = cr.trailing_zeros() as u8;
    if PhoneId::COUNT <= lowest {
        return None;
    }
    Some(Phones {
        count: cr.count_ones() as u8,
        lowest: PhoneId(lowest),
    })
}

// How many phones are in CR, and the lowest numbered one. Refuses 9 for history and image, 6, 2.
pub fn status(m: Lent<'_>) -> Result<Option<Phones>, Refusal>
    ensures { status_reply result ≡ status_of (looked_at m.entry) }
{
    head::up_head(m)?;
    Ok(phones_in(m.state.cr))
}
