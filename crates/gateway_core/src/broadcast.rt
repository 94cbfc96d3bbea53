//! What concerns all connections at once: a moment, and the drain.
ghost use Rattle.std.specs.Prelude.{◌≡◌};
ghost use Rattle.gateway_connection.specs.Linked.{IsNow, none_over};
ghost use Rattle.gateway_core.specs.Whole.{AllEnd, AreFit, AreNumbered, IsToldOnly, OneBreaks};
ghost use Rattle.gateway_core.specs.Telling.{IsForAll, drained_by};

use gateway_connection::{Connection, Shared};
use gateway_replies::ReplyHook;
use gateway_theory::Trigger;
use std::collections::BTreeMap;

/// Tells the contexts, and has each connection end those of its calls whose contexts this has ended. Where memory is
/// refused to the reply of one, it breaks. True where one broke.
pub(crate) fn end_calls<H: ReplyHook + Drop>(
    shared: &mut Shared<H>,
    conns: &mut BTreeMap<u64, Connection>,
    trigger: &Trigger,
) -> bool
    requires all { IsForAll trigger.now }
    requires now { IsNow trigger.now shared.old.moment }
    requires fit { AreFit none_over shared.old conns.old.entries }
    requires numbered { AreNumbered conns.old.entries }
    ensures ended { AllEnd trigger.now conns.old.entries conns.new.entries }
    ensures fit { AreFit none_over shared.new conns.new.entries }
    ensures drained { shared.new.contexts.standing.drained ≡ drained_by trigger.now shared.old.contexts.standing.drained }
    ensures rest { IsToldOnly shared.old shared.new }
    ensures broke { OneBreaks result conns.old.entries conns.new.entries }
{
    shared.contexts.tell(trigger);
    let mut broke = false;
    while let Some(id) = shared.contexts.first_ended() {
        let Some(held) = conns.get_mut(&id.conn.number()) else {
            unreachable!();
        };
        if held.end_calls(shared, trigger) {
            broke = true;
        }
    }
    broke
}
