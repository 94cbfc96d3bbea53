//! What a loop rests on. It does nothing.
ghost use Rattle.gateway_loop.specs.Laws.{LoopLaws};

use gateway_theory::laws::queue_law;
use gateway_theory::served_laws::{begins_law, known_law};

/// What was taken begins what is queued, and what is queued stays.
pub(crate) fn loop_laws()
    ensures { LoopLaws }
{
    known_law();
    begins_law();
    queue_law();
}
