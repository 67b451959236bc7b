// An event at another server than the state's own.
ghost use Rattle.std.specs.Prelude.{◌≡◌, []};
ghost use Rattle.notes.specs.Reply.{first};
ghost use Rattle.rules.specs.Memory.{memory};
ghost use Rattle.rules.specs.Answer.{verdict_refusal, here_refusals};

use notes::index::ServerId;
use rules::answer::Refusal;
use rules::state::State;

// 1 where the event is at another server.
pub(crate) fn here(s: &State, at: ServerId) -> Result<(), Refusal>
    ensures { verdict_refusal result ≡ first (here_refusals (memory s.now [] []) at) }
{
    if at == s.own {
        Ok(())
    } else {
        Err(Refusal::OutOfRange)
    }
}
