// The calls on update messages, for the phone app: they need no server.
ghost use Rattle.std.specs.Prelude.{◌≡◌};
ghost use Rattle.notes.specs.Message.{check as check_of, write as write_of, first_place};
ghost use Rattle.rules.specs.Answer.{verdict_reply};
ghost use Rattle.rules.specs.Writes.{server};
ghost use Rattle.ssaldorip.specs.Calls.{left, answered, next};
ghost use Rattle.ssaldorip.specs.Forms.{place_told};

use crate::call::code;
use notes::index::ServerId;
use notes::record::Record;
use notes::{message, number, reader};
use rules::answer::Refusal;

// Whether a message is well formed.
fn checked(message: &[u8]) -> Result<(), Refusal>
    ensures { (verdict_reply result).number ≡ (check_of message.now).number }
{
    message::check(message)?;
    Ok(())
}

// 0 for a message that is well formed, and 6 otherwise.
#[unsafe(no_mangle)]
pub extern "C" fn ssaldorip_message_check(message: &[u8]) -> u32
    ensures { result ≡ (check_of message.now).number }
{
    code(checked(message))
}

// The message of these records, where they make one and there is room for it.
fn written(n: u8, sender: u8, records: &[u8], out: &mut [u8]) -> Result<(), Refusal>
    ensures { left (verdict_reply result).number out.new ≡ answered (write_of n (server sender) records.now out.old) }
{
    message::write(n, ServerId(sender), records, out)?;
    Ok(())
}

// The message of these records at the start of out: 1 for N or sender, then 6, then 9 for out.
#[unsafe(no_mangle)]
pub extern "C" fn ssaldorip_message_write(n: u8, sender: u8, records: &[u8], out: &mut [u8]) -> u32
    ensures { left result out.new ≡ answered (write_of n (server sender) records.now out.old) }
{
    code(written(n, sender, records, out))
}

// The place of a message's first record, or the message's end where it is not right.
#[tactic(auto, using(crate::proofs::Reading::first_told))]
#[unsafe(no_mangle)]
pub extern "C" fn ssaldorip_message_first(message: &[u8]) -> usize
    ensures { result ≡ first_place message.now }
{
    reader::first_place(message).unwrap_or(message.len())
}

// The record at a place, copied, and the place behind it, or 0 where no whole record is left.
#[tactic(auto, unfolding(crate::specs::Calls::next))]
fn copied(message: &[u8], at: usize, record: &mut [u8]) -> Result<usize, Refusal>
    ensures { left (place_told result) «record».new ≡ next message.now at «record».old }
{
    if record.len() < Record::LEN {
        return Err(Refusal::TooShort);
    }
    let Some(found) = reader::read_at(message, at) else {
        return Ok(0);
    };
    number::raw::put_bytes(record, 0, &found.to_bytes());
    Ok(reader::place_after(message, at))
}

// The record at a place of a message, copied to the start of `record`: the place behind it, or 0 where no whole record is left, or
// 9 where `record` is too short. No such place is 0 or 9.
#[unsafe(no_mangle)]
pub extern "C" fn ssaldorip_message_next(message: &[u8], at: usize, record: &mut [u8]) -> usize
    ensures { left result «record».new ≡ next message.now at «record».old }
{
    copied(message, at, record).unwrap_or_else(|refusal| usize::from(u8::from(refusal)))
}
