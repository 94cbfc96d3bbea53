//! How a loop ends.
ghost use Rattle.gateway_loop.specs.Loop.{Goes};
ghost use Rattle.loop_model.specs.Accounts.{AccountsOn};
ghost use Rattle.loop_model.specs.Whole.{ContinuesLoop, asked_at};
ghost use Rattle.std.specs.Prelude.{◌≡◌, [], IfSome, None, count_by, is_some, true};

use crate::event_loop::EventLoop;
use branch_asking::Network;
use gateway_core::ReplyHook;
use wires::Wire;

#[tactic(auto, using(crate::proofs::AskLemmas::going))]
impl<H: ReplyHook + Drop, W: Wire + Drop> EventLoop<H, W> {
    /// Closes each stream that is left: the loop ends. What was not decided yet is lost, and nobody is told of it.
    pub fn close_all<N: Network<W>>(&mut self, net: &mut N)
        ensures continues { ContinuesLoop self.old self.new }
        ensures accounts { AccountsOn 0 [] (N.value net.old) (N.value net.new) self.old self.new }
        ensures drained { self.new.side.drained ≡ self.old.side.drained }
        ensures no_client { count_by is_some self.new.side.clients ≡ 0 }
        ensures no_job { count_by is_some self.new.asking ≡ 0 }
        ensures none_waits { (self.new.kept ≡ []) × (self.new.closing ≡ []) }
    {
        self.keep_no_more();
        self.close_exchanges(net);
        self.close_clients(net);
        self.close_kept(net);
        self.close_waiting(net);
    }

    /// Each job that is asked for is over.
    fn close_exchanges<N: Network<W>>(&mut self, net: &mut N)
        ensures goes { Goes (N.value net.old) (N.value net.new) self.old self.new }
        ensures none { count_by is_some self.new.asking ≡ 0 }
    {
        while let Some(place) = self.first_exchange() {
            let _end = self.record(net, place);
        }
    }

    /// The first place that has an exchange.
    fn first_exchange(&self) -> Option<usize>
        ensures none { result ≡ None → count_by is_some self.now.asking ≡ 0 }
        ensures some { IfSome result (λ place. is_some (asked_at place self.now.asking) ≡ true) }
    {
        Some(self.asking.iter().next()?.0)
    }

    /// Each client has gone.
    fn close_clients<N: Network<W>>(&mut self, net: &mut N)
        ensures goes { Goes (N.value net.old) (N.value net.new) self.old self.new }
        ensures none { count_by is_some self.new.side.clients ≡ 0 }
        ensures others { self.new.asking ≡ self.old.asking }
    {
        while let Some(place) = self.clients().first_place() {
            self.let_go(net, place);
        }
    }

    /// No stream waits for its backend's end any more.
    fn close_waiting<N: Network<W>>(&mut self, net: &mut N)
        ensures goes { Goes (N.value net.old) (N.value net.new) self.old self.new }
        ensures exact { self.new ≡ record self.old { closing = [] } }
    {
        self.closing.close_all(net);
    }
}
