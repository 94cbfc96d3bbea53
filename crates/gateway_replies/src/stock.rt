ghost use Rattle.std.specs.Prelude.{◌≡◌, ◌==◌, length, is_ok, IfOk, IfErr};
ghost use Rattle.http_pieces.specs.Request.{most_requests};

use std::marker::Model;

/// How many hooks a connection brings: one for each request that it may make.
pub const HOOKS: usize = 100;

/// The hooks of a connection, one for each request that it may make.
#[derive(Drop)]
pub struct Stock<H> {
    hooks: Vec<H>,
}

impl<H> Model for Stock<H> {
    ghost use Rattle.std.specs.Prelude.{◌≡◌, List, length};
    ghost use Rattle.http_pieces.specs.Request.{most_requests};

    ghost Value = { List H };

    ghost view = { λ s. s.hooks.items };

    ghost invariant = { λ s. length s.hooks.items ≡ most_requests };
}

impl<H> Stock<H> {
    /// A stock of these hooks, where they are exactly 100; else they come back.
    pub fn of(hooks: Vec<H>) -> Result<Stock<H>, Vec<H>>
        ensures enough { is_ok result ≡ (length hooks.items == most_requests) }
        ensures all { IfOk result (λ stock. stock ≡ hooks.items) }
        ensures back { IfErr result (λ back. back.items ≡ hooks.items) }
    {
        if hooks.len() == HOOKS {
            Ok(Stock { hooks })
        } else {
            Err(hooks)
        }
    }

    /// Its hooks, of which there are 100.
    pub(crate) fn into_hooks(self) -> Vec<H>
        ensures all { result.items ≡ self }
        ensures full { length self ≡ most_requests }
    {
        self.hooks
    }
}
