ghost use Rattle.std.specs.Prelude.{◌≡◌};
ghost use Rattle.gateway_replies.specs.Least.{first_deadline};

use crate::contexts::Contexts;
use crate::hook::ReplyHook;

impl<H: ReplyHook + Drop> Contexts<H> {
    /// The least deadline of the calls and of their branches whose contexts have not ended.
    pub fn next_deadline(&self) -> Option<u64>
        ensures { result ≡ first_deadline self.now.standing.calls }
    {
        self.contexts.next_deadline()
    }
}
