//! The run of an order with restarts, to the story of each session.

ghost use Rattle.std.specs.Prelude.{◌≡◌, IfOk, length};
ghost use Rattle.tk_session.specs.Chain.{IsChainOf};
ghost use Rattle.tk_session.specs.Order.{lines_of};

use crate::laws::a_chain_keeps_its_stretches;
use crate::session_order::SessionOrder;
use crate::sessions::Sessions;
use std::alloc::Global;
use tk_base::{NoMemory, Settings};
use tk_input::Logs;
use tk_story::Story;

/// The stories of an order over these settings and logs, one for each of its stretches: the events of each stretch, and
/// behind the last one the drive to the ends of the logs.
pub fn tell(
    alloc: Global,
    settings: Settings,
    logs: Logs,
    order: &SessionOrder,
) -> Result<Vec<Story>, NoMemory>
    requires objects { logs.objects ≡ settings.objects }
    requires monitors { length logs.logs ≡ settings.monitors }
    ensures { IfOk result (λ stories. IsChainOf settings logs (lines_of order.now) stories.items) }
{
    let mut sessions = Sessions::new(alloc, settings, logs)?;
    let Ok(()) = sessions.play(order) else {
        drop(sessions);
        return Err(NoMemory);
    };
    a_chain_keeps_its_stretches();
    let stories = sessions.into_stories(alloc)?;
    Ok(stories)
}
