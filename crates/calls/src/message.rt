// A server's own update message: its history behind a header.
ghost use Rattle.std.specs.Prelude.{◌≡◌};
ghost use Rattle.memory.specs.Lent.{looked_at};
ghost use Rattle.rules.specs.Calls.{message_filled, message as message_of};

use memory::head;
use memory::lent::Lent;
use notes::message;
use notes::message::Header;
use notes::record::Record;
use rules::answer::Refusal;

// Writes it at the start of out, and answers its length. Refuses 9 for history and image, 6, 2, then 9 for out.
pub fn message(m: Lent<'_>, out: &mut [u8]) -> Result<usize, Refusal>
    ensures { message_filled result out.new ≡ message_of (looked_at m.entry) out.old }
{
    head::up_head(m)?;
    let s = m.state;
    let len = Record::LEN * usize::from(s.held);
    if out.len() < Header::LEN + len {
        return Err(Refusal::TooShort);
    }
    message::raw::put_message(out, s.n, s.own, &m.history[..len]);
    Ok(Header::LEN + len)
}
