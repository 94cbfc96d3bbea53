ghost use Rattle.gateway_model.specs.Duty.{MeetsDuty};

use after_funcs::Hook;
use gateway_core::{Ending, HOOKS, ReplyHook, Stock, ending_reply};
use http_pieces::Bytes;
use std::alloc::{AllocError, Global};

/// The hook of a call, which answers the call's ending by `ending_reply`. It is no box, so a connection's hooks cost
/// next to nothing.
#[derive(Drop)]
pub struct PlainHook {
    alloc: Global,
}

impl Hook<Ending, Bytes> for PlainHook {
    ghost allows = { λ ending. Unit {0} };

    ghost meets = { λ ending bytes. MeetsDuty ending bytes };

    ghost gives = { λ hook ending result. Unit {0} };

    fn run(self, ending: Ending) -> Result<Bytes, AllocError> {
        ending_reply(self.alloc, ending)
    }
}

impl ReplyHook for PlainHook {
    ghost always = { λ ending. tt };

    ghost exact = { λ ending bytes met. met };
}

/// The hooks of a connection.
pub fn stock(alloc: Global) -> Result<Stock<PlainHook>, AllocError> {
    let mut hooks = Vec::new(alloc);
    for _hook in 0..HOOKS {
        hooks.push(PlainHook { alloc })?;
    }
    match Stock::of(hooks) {
        Ok(stock) => Ok(stock),
        Err(_) => unreachable!(),
    }
}
