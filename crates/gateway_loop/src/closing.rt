ghost use Rattle.std.specs.Prelude.{length, map, option_to_list, ◌≡◌, ◌-◌, ◌∷◌, ◌++◌, []};
ghost use Rattle.gateway_loop.specs.Closing.{ClosesFrom, IsNone};
ghost use Rattle.loop_model.specs.Streams.{closed_turns};

use crate::limits::MOST_CLOSING;
use branch_asking::Network;
use std::alloc::{AllocError, Global};
use std::collections::VecDeque;
use std::marker::Model;
use wires::{Ready, Wire};

/// Streams to backends whose replies came whole. Each waits for its backend's end for a while, and is closed then: so
/// the port waits for stray packets on the side of the backend, which has closed first (TIME_WAIT of RFC 9293).
#[derive(Drop)]
pub(crate) struct ClosingStreams<W: Wire> {
    // the oldest first: each has the same time
    waiting: VecDeque<ClosingStream<W>>,
}

impl<W: Wire> Model for ClosingStreams<W> {
    ghost use Rattle.std.specs.Prelude.{List};
    ghost use Rattle.loop_model.specs.Streams.{ClosedValue};

    ghost Value = { List ClosedValue };

    ghost view = { λ c. c.waiting.items };
}

/// A stream that waits for its backend's end, until that moment at most. It was watched by that token.
#[derive(Drop)]
struct ClosingStream<W: Wire> {
    stream: W,
    token: usize,
    until: u64,
}

impl<W: Wire> Model for ClosingStream<W> {
    ghost use Rattle.loop_model.specs.Streams.{ClosedValue, closed_turns};

    ghost Value = { ClosedValue };

    ghost view = { λ s. closed_turns (W.peer s.stream) (W.turns s.stream) };
}

impl<W: Wire> ClosingStream<W> {
    fn into_wire(self) -> W
        ensures { closed_turns (W.peer result) (W.turns result) ≡ self }
    {
        self.stream
    }
}

impl<W: Wire> ClosingStreams<W> {
    /// None yet, and room for as many as may be.
    pub(crate) fn new(alloc: Global) -> Result<ClosingStreams<W>, AllocError>
        ensures { IsNone result }
    {
        Ok(ClosingStreams {
            waiting: VecDeque::with_capacity(alloc, MOST_CLOSING)?,
        })
    }

    /// The least moment until which one waits.
    pub(crate) fn next_until(&self) -> Option<u64> {
        Some(self.waiting.front()?.until)
    }
}

impl<W: Wire + Drop> ClosingStreams<W> {
    /// The stream waits until then. It is watched by that token. Where too many wait, the oldest is closed; where there
    /// is no memory, this one is.
    fn keep<N: Network<W>>(&mut self, net: &mut N, stream: W, token: usize, until: u64)
        ensures { ClosesFrom (N.value net.old) (N.value net.new)
            (closed_turns (W.peer stream) (W.turns stream) ∷ self.old) self.new }
    {
        if self.waiting.len() >= MOST_CLOSING {
            self.close_first(net);
        }
        let kept = self.waiting.push_back(ClosingStream {
            stream,
            token,
            until,
        });
        if let Err(failed) = kept {
            net.close(failed.value.into_wire());
        }
    }

    /// A stream is left. It waits until then, if it is to, and else it is closed.
    pub(crate) fn put<N: Network<W>>(
        &mut self,
        net: &mut N,
        stream: W,
        waits: bool,
        token: usize,
        until: u64,
    )
        ensures { ClosesFrom (N.value net.old) (N.value net.new) (closed_turns (W.peer stream) (W.turns stream) ∷ self.old) self.new }
    {
        if waits {
            self.keep(net, stream, token, until);
        } else {
            net.close(stream);
        }
    }

    /// Closes the first of them, if there is one.
    fn close_first<N: Network<W>>(&mut self, net: &mut N)
        ensures closes { ClosesFrom (N.value net.old) (N.value net.new) self.old self.new }
        ensures fewer { length self.new ≡ length self.old - 1 }
    {
        if let Some(first) = self.waiting.pop_front() {
            net.close(first.into_wire());
        }
    }

    /// Closes all of them.
    pub(crate) fn close_all<N: Network<W>>(&mut self, net: &mut N)
        ensures none { self.new ≡ [] }
        ensures closes { ClosesFrom (N.value net.old) (N.value net.new) self.old self.new }
    {
        while !self.waiting.is_empty() {
            self.close_first(net);
        }
    }

    /// Notes that a stream of that token was ended, if it was: one that waits is closed. Answers whether one did.
    pub(crate) fn note_ready<N: Network<W>>(&mut self, net: &mut N, ready: Ready) -> bool
        ensures { ClosesFrom (N.value net.old) (N.value net.new) self.old self.new }
    {
        if !ready.read_closed {
            return false;
        }
        let mut waiting = self.waiting.iter();
        let Some(index) = waiting.position(|waiting| waiting.token == ready.token) else {
            return false;
        };
        let Some(ended) = self.waiting.remove(index) else {
            return false;
        };
        net.close(ended.into_wire());
        true
    }

    /// Closes those that have waited long enough at that moment.
    pub(crate) fn expire<N: Network<W>>(&mut self, net: &mut N, moment: u64)
        ensures { ClosesFrom (N.value net.old) (N.value net.new) self.old self.new }
    {
        for _stream in 0..self.waiting.len() {
            if self.next_until().is_none_or(|until| until > moment) {
                return;
            }
            self.close_first(net);
        }
    }
}
