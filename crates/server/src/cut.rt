// A plain cut: the server is down, and nothing is stored.
ghost use Rattle.std.specs.Prelude.{◌≡◌};
ghost use Rattle.memory.specs.Lent.{server, Stays};
ghost use Rattle.rules.specs.Answer.{plain_effect};
ghost use Rattle.rules.specs.Step.{cut as cut_of};

use crate::here;
use memory::head;
use memory::lent::Server;
use notes::index::ServerId;
use rules::answer::Refusal;

pub(crate) fn cut(m: &mut Server<'_, '_>, at: ServerId) -> Result<(), Refusal>
    ensures stays { Stays m.old m.new }
    ensures effect { plain_effect result (server m.new) ≡ cut_of (server m.old) at }
{
    head::up_head(m.lent())?;
    here::here(&m.state, at)?;
    m.state = m.state.down();
    Ok(())
}
