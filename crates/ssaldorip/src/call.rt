// What a call is lent beside a server's buffers, and what it answers as a number.
ghost use Rattle.std.specs.Prelude.{◌≡◌};
ghost use Rattle.rules.specs.Answer.{verdict_reply};
ghost use Rattle.ssaldorip.specs.Forms.{vector_told};

use notes::vector;
use notes::vector::Vector;
use rules::answer::Refusal;

// The vector that a request carries or a reply has: 9 for too few bytes.
pub(crate) fn vector_in(b: &[u8]) -> Result<Vector, Refusal>
    ensures { result ≡ vector_told b.now }
{
    if b.len() < Vector::SIZE {
        return Err(Refusal::TooShort);
    }
    Ok(vector::raw::vector_at(b, 0))
}

// 0, or the refusal's number in document 01.
pub(crate) fn code(told: Result<(), Refusal>) -> u32
    ensures { result ≡ (verdict_reply told).number }
{
    match told {
        Ok(()) => 0,
        Err(refusal) => u32::from(u8::from(refusal)),
    }
}
