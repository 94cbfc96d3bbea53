ghost use Rattle.std.specs.Prelude.{◌≡◌, [], All, IsTrue, None, Some, length};
ghost use Rattle.gateway_loop.specs.Rests.{is_at_most};
ghost use Rattle.gateway_loop.specs.Kept.{AddsLast, Hears, Keeps, KeepsIf, LooksAt, Takes, TakesAny, TakesAt};
ghost use Rattle.loop_model.specs.Rest.{AtMost};
ghost use Rattle.loop_model.specs.Streams.{KeptValue};

use crate::limits::{MOST_AGE, MOST_USES, is_due, is_not_after};
use branch_asking::Backend;
use std::alloc::Global;
use std::collections::VecDeque;
use std::marker::Model;
use wires::{Ready, Wire};

/// What became of streams that were kept, so far.
#[derive(Clone, Copy, PartialEq, Eq, Debug)]
pub struct KeptCounts {
    /// How often a job went over one.
    pub used: u64,
    /// How many were closed as their time was over.
    pub expired: u64,
    /// How many were closed as their backends had ended them.
    pub ended: u64,
    /// How many were closed as bytes came that nobody had asked for.
    pub unasked: u64,
    /// How many were closed since their places were needed.
    pub displaced: u64,
}

/// What became of a stream that was kept.
#[derive(Clone, Copy, PartialEq, Eq, Debug)]
pub(crate) enum Fate {
    Used,
    Expired,
    Ended,
    Unasked,
    Displaced,
}

impl KeptCounts {
    /// Nothing has been kept yet.
    pub fn new() -> KeptCounts {
        KeptCounts {
            used: 0,
            expired: 0,
            ended: 0,
            unasked: 0,
            displaced: 0,
        }
    }

    /// One more stream came to that.
    fn count(&mut self, fate: Fate) {
        match fate {
            Fate::Used => self.used = self.used.saturating_add(1),
            Fate::Expired => self.expired = self.expired.saturating_add(1),
            Fate::Ended => self.ended = self.ended.saturating_add(1),
            Fate::Unasked => self.unasked = self.unasked.saturating_add(1),
            Fate::Displaced => self.displaced = self.displaced.saturating_add(1),
        }
    }
}

impl Fate {
    /// What becomes of this one, which a read did not find quiet.
    pub(crate) fn of<W: Wire>(stream: &Backend<W>) -> Fate {
        if stream.has_unasked() {
            Fate::Unasked
        } else {
            Fate::Ended
        }
    }
}

/// Streams to backends that are kept, to be used again.
#[derive(Drop)]
pub(crate) struct KeptStreams<W: Wire> {
    alloc: Global,
    // the one that was put back last stands last: each is kept for the same time
    streams: VecDeque<KeptStream<W>>,
    // for so many milliseconds; None where none is kept
    time: Option<u64>,
    // the number of this turn
    turn: u64,
    counts: KeptCounts,
}

impl<W: Wire> Model for KeptStreams<W> {
    ghost use Rattle.std.specs.Prelude.{List};
    ghost use Rattle.loop_model.specs.Streams.{KeptValue};

    ghost Value = { List KeptValue };

    ghost view = { λ k. k.streams.items };
}

/// A stream that is kept until that moment at most, for the jobs of this address. It was put back in that turn.
#[derive(Drop)]
struct KeptStream<W: Wire> {
    stream: Backend<W>,
    address: String,
    until: u64,
    turn: u64,
}

impl<W: Wire> Model for KeptStream<W> {
    ghost use Rattle.std.specs.Prelude.{string_bytes};
    ghost use Rattle.loop_model.specs.Streams.{KeptValue, kept_value};

    ghost Value = { KeptValue };

    ghost view = { λ k. kept_value k.stream.stream (string_bytes k.address) k.stream.reads k.stream.watched k.until };
}

impl<W: Wire> KeptStream<W> {
    /// Whether a job of this address may go over it in that turn: it was not put back in the same one, in which what
    /// its backend may have sent behind its reply is not known yet.
    fn serves(&self, address: &str, turn: u64) -> bool
        ensures { IsTrue result → self.now.address ≡ address.now }
    {
        self.turn != turn && self.address.as_str() == address
    }

    /// Whether its time is not over before that moment.
    fn rests(&self, until: Option<u64>) -> bool
        ensures { result ≡ is_at_most until (Some self.now.until) }
    {
        is_not_after(until, Some(self.until))
    }

    /// Whether it is watched by that token.
    fn is_watched_by(&self, token: usize) -> bool {
        self.stream.watched().is_some_and(|(by, _)| by == token)
    }

    /// Something was reported of it: it is read once. Whether nothing was there.
    fn hear(&mut self, ready: Ready) -> bool
        ensures { Hears result self.old self.new }
    {
        self.stream.report(ready);
        self.stream.is_quiet()
    }

    fn into_stream(self) -> Backend<W>
        ensures { result.stream ≡ self.stream }
    {
        self.stream
    }
}

impl<W: Wire> KeptStreams<W> {
    /// None yet. Each will be kept for so many milliseconds; None where none is to be.
    pub(crate) fn new(alloc: Global, time: Option<u64>) -> KeptStreams<W>
        ensures { result ≡ [] }
    {
        KeptStreams {
            alloc,
            streams: VecDeque::new(alloc),
            time,
            turn: 0,
            counts: KeptCounts::new(),
        }
    }

    /// How many are kept.
    pub(crate) fn len(&self) -> usize
        ensures { result ≡ length self.now }
    {
        self.streams.len()
    }

    /// What became of those that were kept.
    pub(crate) fn counts(&self) -> KeptCounts {
        self.counts
    }

    /// One more came to that.
    pub(crate) fn count(&mut self, fate: Fate)
        ensures { self.new ≡ self.old }
    {
        self.counts.count(fate);
    }

    /// Another turn begins.
    pub(crate) fn begin_turn(&mut self)
        ensures { self.new ≡ self.old }
    {
        self.turn = self.turn.wrapping_add(1);
    }

    /// The least moment until which one is kept.
    pub(crate) fn next_until(&self) -> Option<u64> {
        Some(self.streams.front()?.until)
    }

    /// Whether none is due at that moment.
    pub(crate) fn all_rest(&self, until: Option<u64>) -> bool
        ensures { IsTrue result → All (λ (x : KeptValue). AtMost until (Some x.until)) self.now }
    {
        for index in 0..self.streams.len() {
            match self.streams.get(index) {
                Some(kept) if kept.rests(until) => {}
                _ => return false,
            }
        }
        true
    }
}

impl<W: Wire + Drop> KeptStreams<W> {
    /// Keeps the stream, if there is one and it may be kept, for jobs of this address, and answers None. Else it is
    /// given back; and where it was used often or long enough, is not watched, something is there to be read, or no
    /// memory is.
    pub(crate) fn keep(
        &mut self,
        stream: Option<Backend<W>>,
        may_keep: bool,
        address: &str,
        moment: u64,
    ) -> Option<Backend<W>>
        ensures { KeepsIf may_keep address.now stream result self.old self.new }
    {
        let stream = stream?;
        match self.time {
            Some(time) if may_keep => self.put(stream, address, moment, time),
            _ => Some(stream),
        }
    }

    /// Keeps the stream from that moment on for so long, unless it was used often or long enough, is not watched,
    /// something is there to be read, or no memory is.
    fn put(
        &mut self,
        stream: Backend<W>,
        address: &str,
        moment: u64,
        time: u64,
    ) -> Option<Backend<W>>
        ensures { Keeps address.now stream.stream result self.old self.new }
    {
        let oldest = stream
            .opened()
            .saturating_add(time.saturating_mul(MOST_AGE));
        if stream.uses() >= MOST_USES || moment >= oldest || stream.watched().is_none() {
            return Some(stream);
        }
        let mut stream = stream;
        // what came with the reply is told by no further report
        if stream.may_read() && !stream.is_quiet() {
            return Some(stream);
        }
        self.add(stream, address, moment.saturating_add(time))
    }

    /// Keeps the stream until then, if there is memory for that.
    fn add(&mut self, stream: Backend<W>, address: &str, until: u64) -> Option<Backend<W>>
        ensures { AddsLast address.now stream result self.old self.new }
    {
        let Ok(address) = String::from_str(self.alloc, address) else {
            return Some(stream);
        };
        let kept = KeptStream {
            stream,
            address,
            until,
            turn: self.turn,
        };
        match self.streams.push_back(kept) {
            Ok(()) => None,
            Err(failed) => Some(failed.value.into_stream()),
        }
    }

    /// No more are kept from now on.
    pub(crate) fn stop(&mut self)
        ensures { self.new ≡ self.old }
    {
        self.time = None;
    }

    /// Takes the stream that was put back last, of those that may serve a job of this address now.
    pub(crate) fn take(&mut self, address: &str) -> Option<Backend<W>>
        ensures { Takes address.now result self.old self.new }
    {
        for index in (0..self.streams.len()).rev() {
            match self.streams.get(index) {
                Some(kept) if kept.serves(address, self.turn) => return self.take_at(index),
                _ => {}
            }
        }
        None
    }

    /// Takes the stream at that place of the order.
    fn take_at(&mut self, index: usize) -> Option<Backend<W>>
        ensures { TakesAt index result self.old self.new }
    {
        Some(self.streams.remove(index)?.into_stream())
    }

    /// Takes the stream at that place of the order, which a read did not find quiet.
    fn take_spoilt(&mut self, index: usize) -> Option<Backend<W>>
        ensures { TakesAt index result self.old self.new }
    {
        let stream = self.take_at(index)?;
        self.counts.count(Fate::of(&stream));
        Some(stream)
    }

    /// Takes the stream that was put back first, if there is one.
    pub(crate) fn take_first(&mut self) -> Option<Backend<W>>
        ensures taken { TakesAny result self.old self.new }
        ensures none { result ≡ None → self.old ≡ [] }
    {
        Some(self.streams.pop_front()?.into_stream())
    }

    /// Takes the stream that was put back first, if its time is over at that moment.
    pub(crate) fn take_due(&mut self, moment: u64) -> Option<Backend<W>>
        ensures { TakesAny result self.old self.new }
    {
        if is_due(self.next_until(), moment) {
            self.counts.count(Fate::Expired);
            self.take_first()
        } else {
            None
        }
    }

    /// Something was reported: the stream at that place of the order, if it is watched by the report's token, is read
    /// once, and taken where something is there.
    pub(crate) fn look(&mut self, index: usize, ready: Ready) -> Option<Backend<W>>
        ensures { LooksAt result self.old self.new }
    {
        let kept = self.streams.get_mut(index)?;
        if !kept.is_watched_by(ready.token) || kept.hear(ready) {
            return None;
        }
        self.take_spoilt(index)
    }
}
