//! Streams that are kept, and used again.
ghost use Rattle.std.specs.Prelude.{◌≡◌, ◌-◌, [], length};
ghost use Rattle.gateway_loop.specs.Kept.{ClosesOne};
ghost use Rattle.gateway_loop.specs.Loop.{Goes, HasLeftMore};

use crate::event_loop::EventLoop;
use crate::kept::Fate;
use crate::limits::MOST_EXCHANGES;
use branch_asking::{Backend, Network};
use gateway_core::ReplyHook;
use http_server::Log;
use wires::{Ready, Wire};

/// What came of looking for a stream that is kept.
#[derive(Clone, Copy, PartialEq, Eq, Debug)]
pub(crate) enum Reuse {
    /// The job goes over one from now on, and some of its request was written.
    Goes,
    /// One was there, but it can't be used, for this reason, and was closed.
    Closed(Fate),
    /// None is kept for the job's address.
    NoneKept,
}

impl<H: ReplyHook + Drop, W: Wire + Drop> EventLoop<H, W> {
    /// The exchange in that place goes over the stream that was put back last, of those that are kept for its address,
    /// from now on, if that can be used.
    pub(crate) fn reuse<N: Network<W>>(&mut self, net: &mut N, place: usize) -> Reuse
        ensures goes { Goes (N.value net.old) (N.value net.new) self.old self.new }
    {
        let Some(asking) = self.asking.get_mut(place) else {
            return Reuse::NoneKept;
        };
        let Some(stream) = self.kept.take(asking.job().address()) else {
            return Reuse::NoneKept;
        };
        let Some(stream) = asking.reuse(stream) else {
            asking.begun_law();
            return Reuse::Goes;
        };
        let fate = Fate::of(&stream);
        close(&mut self.left, net, stream);
        Reuse::Closed(fate)
    }

    /// The stream at that place of the order of those that are kept is read, if it is watched by the report's token. It
    /// is closed where something is there. Whether it is.
    pub(crate) fn look_at_kept<N: Network<W>>(
        &mut self,
        net: &mut N,
        index: usize,
        ready: Ready,
    ) -> bool
        ensures rest { HasLeftMore self.old self.new }
        ensures goes { Goes (N.value net.old) (N.value net.new) self.old self.new }
    {
        match self.kept.look(index, ready) {
            Some(stream) => {
                close(&mut self.left, net, stream);
                true
            }
            None => false,
        }
    }

    /// Closes the stream that is kept longest, if its time is over. Whether it was.
    pub(crate) fn close_kept_due<N: Network<W>>(&mut self, net: &mut N) -> bool
        ensures goes { Goes (N.value net.old) (N.value net.new) self.old self.new }
    {
        match self.kept.take_due(self.clients.moment()) {
            Some(stream) => {
                close(&mut self.left, net, stream);
                true
            }
            None => false,
        }
    }

    /// Closes the stream that is kept longest, if one is.
    pub(crate) fn close_kept_first<N: Network<W>>(&mut self, net: &mut N)
        ensures goes { Goes (N.value net.old) (N.value net.new) self.old self.new }
        ensures fewer { length self.new.kept ≡ length self.old.kept - 1 }
        ensures others { (self.new.asking ≡ self.old.asking) × (self.new.side ≡ self.old.side) × (self.new.closing ≡ self.old.closing) }
    {
        if let Some(stream) = self.kept.take_first() {
            close(&mut self.left, net, stream);
        }
    }

    /// One more stream that was kept came to that.
    fn count_kept(&mut self, fate: Fate)
        ensures { self.new ≡ self.old }
    {
        self.kept.count(fate);
    }

    /// No stream is kept any more from now on. Those that are stay.
    pub(crate) fn keep_no_more(&mut self)
        ensures { self.new ≡ self.old }
    {
        self.kept.stop();
    }

    /// Another turn begins.
    pub(crate) fn begin_turn(&mut self)
        ensures { self.new ≡ self.old }
    {
        self.kept.begin_turn();
    }
}

/// Closes the stream, which jobs have left.
fn close<W: Wire, N: Network<W>>(left: &mut Log<Backend<W>, ()>, net: &mut N, stream: Backend<W>)
    ensures { ClosesOne stream (N.value net.old) (N.value net.new) left.old.items left.new.items }
{
    *left = left.and(&stream, &());
    net.close(stream.into_wire());
}

#[tactic(auto, using(crate::proofs::AskLemmas::going))]
impl<H: ReplyHook + Drop, W: Wire + Drop> EventLoop<H, W> {
    /// The exchange in that place goes over a stream that is kept for its address, if one can be used. Those that can't
    /// are closed.
    pub(crate) fn reuse_any<N: Network<W>>(&mut self, net: &mut N, place: usize) -> bool
        ensures goes { Goes (N.value net.old) (N.value net.new) self.old self.new }
    {
        for _stream in 0..MOST_EXCHANGES {
            match self.reuse(net, place) {
                Reuse::Goes => {
                    self.count_kept(Fate::Used);
                    return true;
                }
                Reuse::NoneKept => return false,
                Reuse::Closed(fate) => self.count_kept(fate),
            }
        }
        false
    }

    /// Something was reported: the streams that are kept and watched by the report's token are read. Whether something
    /// was there at one of them, which is closed.
    pub(crate) fn hear_kept<N: Network<W>>(&mut self, net: &mut N, ready: Ready) -> bool
        ensures rest { HasLeftMore self.old self.new }
        ensures goes { Goes (N.value net.old) (N.value net.new) self.old self.new }
    {
        let mut is_heard = false;
        if ready.readable || ready.read_closed || ready.urgent {
            for index in (0..self.kept.len()).rev() {
                is_heard |= self.look_at_kept(net, index, ready);
            }
        }
        is_heard
    }

    /// Closes the streams whose time is over.
    pub(crate) fn expire_kept<N: Network<W>>(&mut self, net: &mut N)
        ensures goes { Goes (N.value net.old) (N.value net.new) self.old self.new }
    {
        for _stream in 0..self.kept.len() {
            if !self.close_kept_due(net) {
                return;
            }
        }
    }

    /// Where a job waits, and exchanges and streams that are kept have all places, the one that is kept longest is
    /// closed.
    pub(crate) fn make_room<N: Network<W>>(&mut self, net: &mut N)
        ensures goes { Goes (N.value net.old) (N.value net.new) self.old self.new }
    {
        let taken = self.asking.len().saturating_add(self.kept.len());
        let is_full = taken >= MOST_EXCHANGES && self.kept.len() > 0;
        if is_full && self.clients().core().waiting_jobs() > 0 {
            self.count_kept(Fate::Displaced);
            self.close_kept_first(net);
        }
    }

    /// Closes each stream that is kept.
    pub(crate) fn close_kept<N: Network<W>>(&mut self, net: &mut N)
        ensures goes { Goes (N.value net.old) (N.value net.new) self.old self.new }
        ensures none { self.new.kept ≡ [] }
        ensures others { (self.new.asking ≡ self.old.asking) × (self.new.side ≡ self.old.side) × (self.new.closing ≡ self.old.closing) }
    {
        while self.kept.len() > 0 {
            self.close_kept_first(net);
        }
    }
}
