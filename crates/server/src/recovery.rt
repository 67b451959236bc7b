// Recovery: from the image, a server that is down is up again.
ghost use Rattle.std.specs.Prelude.{◌≡◌};
ghost use Rattle.memory.specs.Lent.{server, Stays};
ghost use Rattle.rules.specs.Answer.{plain_effect};
ghost use Rattle.rules.specs.Step.{recovery as recovery_of};

use crate::{here, recover};
use memory::head;
use memory::lent::Server;
use notes::index::ServerId;
use rules::answer::Refusal;

pub(crate) fn recovery(m: &mut Server<'_, '_>, at: ServerId) -> Result<(), Refusal>
    ensures stays { Stays m.old m.new }
    ensures effect { plain_effect result (server m.new) ≡ recovery_of (server m.old) at }
{
    head::down_head(m.lent())?;
    here::here(&m.state, at)?;
    recover::recover(m);
    Ok(())
}
