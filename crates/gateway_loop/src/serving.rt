ghost use Rattle.gateway_loop.specs.Loop.{Admits, Goes, GoesAlone};
ghost use Rattle.loop_model.specs.Accounts.{AccountsOn};
ghost use Rattle.loop_model.specs.Whole.{ContinuesLoop};
ghost use Rattle.loop_model.specs.Explained.{at};
ghost use Rattle.std.specs.Prelude.{◌≡◌, ◌+◌, [], count_by, is_some, length, true};

use crate::client::{Heard, Written};
use crate::comings::Dealt;
use crate::event_loop::EventLoop;
use crate::limits::{LINGER, MOST_CLIENTS, MOST_LINGERING};
use branch_asking::Network;
use gateway_core::ReplyHook;
use std::collections::VecDeque;
use wires::Wire;

#[tactic(auto, using(crate::proofs::AskLemmas::going))]
impl<H: ReplyHook + Drop, W: Wire + Drop> EventLoop<H, W> {
    /// Takes the streams of new connections.
    pub(crate) fn admit_all<N: Network<W>>(
        &mut self,
        net: &mut N,
        streams: &mut VecDeque<Dealt<H, W>>,
    )
        ensures goes { Admits (length streams.old.items) [] (N.value net.old) (N.value net.new) self.old self.new }
        ensures taken { streams.new.items ≡ [] }
    {
        while let Some(dealt) = streams.pop_front() {
            self.admit(net, dealt);
        }
    }

    /// Opens a connection for the stream. Where none can be opened, or the stream not be watched, it is closed without
    /// a byte.
    fn admit<N: Network<W>>(&mut self, net: &mut N, dealt: Dealt<H, W>)
        ensures goes { Admits 1 [] (N.value net.old) (N.value net.new) self.old self.new }
    {
        let Some(place) = self.clients.open(net, dealt) else {
            return net.tell_unserved();
        };
        if !self.clients.watch(net, place) {
            self.drop_client(net, place);
            net.tell_unserved();
        }
    }

    /// Something may be there for the client in that place. For want of memory it is not noted, but found by a look.
    pub(crate) fn note(&mut self, place: usize)
        ensures { self.new ≡ self.old }
    {
        if !self.clients.set_noted(place, true) && self.noted.push_back(place).is_err() {
            let _was_noted = self.clients.set_noted(place, false);
        }
    }

    /// Takes the first of the clients that were noted: its place.
    fn next_noted(&mut self) -> Option<usize>
        ensures { self.new ≡ self.old }
    {
        let place = self.noted.pop_front()?;
        let _was_noted = self.clients.set_noted(place, false);
        Some(place)
    }

    /// Reads the client's stream once, if it is to be read. One that lingered long enough goes.
    pub(crate) fn serve_client<N: Network<W>>(&mut self, net: &mut N, place: usize)
        ensures goes { Goes (N.value net.old) (N.value net.new) self.old self.new }
    {
        // before what it brings
        self.tick(net);
        let heard = self.read_client(place);
        if self.clients().is_to_go(place) {
            return self.drop_client(net, place);
        }
        if matches!(heard, Heard::Broke | Heard::End) {
            self.give_up_unwanted(net, place);
        }
        self.note(place);
    }

    /// Reads the stream of the client in that place, if it is to be read. Notes whether a piece that it brought made no
    /// request, whatever is owed to it.
    fn read_client(&mut self, place: usize) -> Heard
        ensures goes { GoesAlone self.old self.new }
    {
        if !self.clients().is_to_be_read(place) {
            return Heard::Nothing;
        }
        let requests = self.clients().requests(place);
        let heard = self.clients.read(place);
        if heard == Heard::Piece {
            let is_half_read = self.clients().requests(place) == requests;
            self.clients.set_half_read(place, is_half_read);
        }
        heard
    }

    /// Writes to the clients for whom something may be there. Answers whether there were any.
    pub(crate) fn write_noted<N: Network<W>>(&mut self, net: &mut N) -> bool
        ensures goes { Goes (N.value net.old) (N.value net.new) self.old self.new }
    {
        let mut has_written = false;
        for _client in 0..MOST_CLIENTS {
            let Some(place) = self.next_noted() else {
                break;
            };
            self.write_client(net, place);
            has_written = true;
        }
        has_written
    }

    /// Writes the replies that are there to the client in that place, and lets it leave if nothing more comes.
    fn write_client<N: Network<W>>(&mut self, net: &mut N, place: usize)
        ensures goes { Goes (N.value net.old) (N.value net.new) self.old self.new }
    {
        if self.clients().lingers(place) {
            return;
        }
        let written = self.clients.write(net, place);
        if written == Written::Failed {
            self.clients().tell_broken(net, place);
            self.drop_client(net, place);
        } else if self.clients().is_to_leave(place) {
            self.clients().tell_broken(net, place);
            self.leave(net, place);
        }
    }

    /// Closes the connections to which nothing is owed: each of its requests has its reply, and that was written. One
    /// whose last bytes made no request stays: its request may be half read.
    pub fn close_idle<N: Network<W>>(&mut self, net: &mut N)
        ensures continues { ContinuesLoop self.old self.new }
        ensures accounts { AccountsOn 0 [] (N.value net.old) (N.value net.new) self.old self.new }
        ensures drained { self.new.side.drained ≡ self.old.side.drained }
    {
        for _client in 0..self.clients().len() {
            let Some(place) = self.clients().idle_place() else {
                return;
            };
            self.leave(net, place);
        }
    }

    /// The connection of the client in that place is closed. Its stream lingers, so that what was written is not lost
    /// with what still comes; or it is closed at once, where it has brought its end, or too many linger.
    pub(crate) fn leave<N: Network<W>>(&mut self, net: &mut N, place: usize)
        ensures goes { Goes (N.value net.old) (N.value net.new) self.old self.new }
    {
        let lingers = self.clients().is_read(place) && self.clients().lingering() < MOST_LINGERING;
        let until = self.clients().moment().saturating_add(LINGER);
        let exchanges = self.clients.take_exchanges(place);
        self.clients.leave(place, until);
        self.give_up_all(net, exchanges);
        if !lingers {
            self.drop_client(net, place);
        }
    }

    /// The stream of the client in that place is closed, and its connection.
    pub(crate) fn drop_client<N: Network<W>>(&mut self, net: &mut N, place: usize)
        ensures goes { Goes (N.value net.old) (N.value net.new) self.old self.new }
    {
        let exchanges = self.clients.take_exchanges(place);
        self.let_go(net, place);
        self.give_up_all(net, exchanges);
    }

    /// The same, where no exchange is asked for the client any more.
    pub(crate) fn let_go<N: Network<W>>(&mut self, net: &mut N, place: usize)
        ensures goes { Goes (N.value net.old) (N.value net.new) self.old self.new }
        ensures fewer { is_some (at place self.old.side.clients) ≡ true
            → count_by is_some self.old.side.clients ≡ count_by is_some self.new.side.clients + 1 }
        ensures others { self.new.asking ≡ self.old.asking }
    {
        self.clients.let_go(net, place);
    }
}
