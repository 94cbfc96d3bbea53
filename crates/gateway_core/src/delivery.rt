ghost use Rattle.std.specs.Prelude.{◌≡◌, ◌==◌, Err};
ghost use Rattle.gateway_model.specs.declared.event.Event.TheVariants.{Piece};
ghost use Rattle.gateway_theory.specs.Serving.{CountsCalls, Keeps, TellsStep};
ghost use Rattle.gateway_theory.specs.Told.{AddsEvent, BeginsWithin, TakesEvent};

use crate::Core;
use gateway_model::ConnId;
use gateway_replies::ReplyHook;
use gateway_theory::StepFault;
use gateway_theory::served_laws::parts_law;

/// Feeds a whole piece of a connection's stream to the core, request by request.
///
/// `Gone` where the connection is not open, hung up or is broken, and then nothing changed; `Exhausted` and `Memory` where it broke
/// on the way.
pub fn deliver<H: ReplyHook + Drop>(
    core: &mut Core<H>,
    conn: ConnId,
    piece: &[u8],
) -> Result<(), StepFault>
    ensures stands { TakesEvent (Piece conn piece.now) core.old core.new }
    ensures adds { AddsEvent (Piece conn piece.now) core.old core.new }
    ensures tells { TellsStep conn core.old core.new result }
    ensures begins { result ≡ Err StepFault.Exhausted → BeginsWithin conn piece.now core.old }
    ensures counts { CountsCalls core.old core.new }
    ensures keeps { Keeps (λ c. c == conn) core.old core.new }
{
    parts_law();
    let mut rest = piece;
    loop {
        let taken = core.feed(conn, rest)?;
        rest = &rest[taken..];
        if rest.is_empty() {
            return Ok(());
        }
    }
}
