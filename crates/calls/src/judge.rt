// Judging a state with its buffers: sound, or 9, or 6.
ghost use Rattle.std.specs.Prelude.{◌≡◌};
ghost use Rattle.memory.specs.Lent.{looked_at};
ghost use Rattle.rules.specs.Answer.{verdict_reply};
ghost use Rattle.rules.specs.Calls.{judge as judge_of};

use memory::head;
use memory::lent::Lent;
use rules::answer::Refusal;

// Whether the state is sound with its history and image, up or down: 9 for history and image, then 6.
pub fn judge(m: Lent<'_>) -> Result<(), Refusal>
    ensures { verdict_reply result ≡ judge_of (looked_at m.entry) }
{
    head::sound_head(m)
}
