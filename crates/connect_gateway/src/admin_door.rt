ghost use Rattle.std.specs.Prelude.{⊤};

use crate::dealer::sooner;
use crate::entrance::{Entrance, VISITORS};
use crate::loop_side::LoopSide;
use crate::visitor::Seen;
use admin::{
    Asked, BranchTotals, Door, Drain, Figures, KeptFigures, LoopFigures, PlanTotals, Readiness,
    Rejections, ServedNames, drain_reply, forbidden_reply, metrics_reply, metrics_text,
    misdirected_reply, not_found_reply, only_get_reply, only_post_reply, ready_reply,
    refusal_reply,
};
use gateway_loop::KeptCounts;
use http_pieces::{Bytes, Text};
use mio::net::TcpListener;
use mio::{Events, Poll};
use std::alloc::{AllocError, Global};
use std::io;
use std::marker::Model;
use std::sync::atomic::{AtomicU64, Ordering};
use std::sync::{Arc, Wait};

/// The text of the figures is told for so many milliseconds before it is made anew.
const FRESH: u64 = 1_000;

/// The token of the first entrance; those of its visitors, and then the other's, follow.
const DOOR: usize = 2;

/// Where operators ask: it tells figures and whether streams are accepted, and begins a drain.
#[derive(Drop)]
pub(crate) struct AdminDoor {
    alloc: Global,
    // that of `--admin` and that of `--ready`, if there are such
    entrances: Vec<Entrance>,
    /// How far the drain is that is asked for here.
    pub(crate) drain: Drain,
    names: Arc<ServedNames>,
    // how many lines of the log were left out
    dropped: Arc<AtomicU64>,
    // whether connections to backends are kept
    keeps: bool,
    // the figures that were told last
    made: Option<Made>,
}

/// The text of the figures, and the moment at which it was made.
#[derive(Drop)]
struct Made {
    moment: u64,
    text: Bytes,
}

// Clauses see nothing of it, which keeps proofs small.
impl Model for AdminDoor {
    ghost Value = { ⊤ };

    ghost view = { λ _. tt };
}

impl AdminDoor {
    /// A door with no entrance yet, by whose drain streams are accepted and calls go on for so many milliseconds. It
    /// tells of connections to backends where they are kept.
    pub(crate) fn new(
        alloc: Global,
        drain: Drain,
        names: Arc<ServedNames>,
        dropped: Arc<AtomicU64>,
        keeps: bool,
    ) -> AdminDoor {
        AdminDoor {
            alloc,
            entrances: Vec::new(alloc),
            drain,
            names,
            dropped,
            keeps,
            made: None,
        }
    }

    /// One more entrance, for operators by the address that was given, or for those who watch.
    pub(crate) fn add(
        &mut self,
        listener: TcpListener,
        operators: Option<Text>,
    ) -> Result<(), AllocError> {
        let tokens = self.entrances.len().saturating_mul(VISITORS + 1);
        let first = tokens.saturating_add(DOOR);
        let entrance = Entrance::new(self.alloc, listener, operators, first)?;
        self.entrances.push(entrance)?;
        Ok(())
    }

    /// Has its listeners waited for.
    pub(crate) fn watch(&mut self, poll: &Poll) -> io::Result<()> {
        for entrance in self.entrances.iter_mut() {
            entrance.watch(poll)?;
        }
        Ok(())
    }

    /// Serves those that a wait told of, at that moment, and lets go of those whose time is over. `readiness` is that
    /// without a drain.
    pub(crate) fn attend<R: Wait>(
        &mut self,
        rt: &R,
        poll: &Poll,
        events: &Events,
        sides: &[Arc<LoopSide>],
        now: &Now,
    ) {
        for event in events {
            self.serve_token(rt, sides, now, event.token().0);
        }
        for entrance in self.entrances.iter_mut() {
            entrance.attend(poll, now.moment);
        }
    }

    /// How long it may be waited for at most, from that moment on.
    pub(crate) fn time_left(&self, moment: u64) -> Option<u64> {
        let next = self.entrances.iter().filter_map(Entrance::next).min();
        let left = next.map(|next| next.saturating_sub(moment));
        sooner(self.drain.time_left(moment), left)
    }

    /// Serves whom the token names.
    fn serve_token<R: Wait>(&mut self, rt: &R, sides: &[Arc<LoopSide>], now: &Now, token: usize) {
        for index in 0..self.entrances.len() {
            let Some(entrance) = self.entrances.get_mut(index) else {
                return;
            };
            if entrance.is_listener(token) {
                entrance.knock(now.moment);
            } else if let Some(place) = entrance.place_of(token) {
                self.serve(rt, sides, now, index, place);
            }
        }
    }

    /// Serves the visitor in that place of that entrance.
    fn serve<R: Wait>(
        &mut self,
        rt: &R,
        sides: &[Arc<LoopSide>],
        now: &Now,
        index: usize,
        place: usize,
    ) {
        let Some(entrance) = self.entrances.get_mut(index) else {
            return;
        };
        let Some(mut visitor) = entrance.take(place) else {
            return;
        };
        let mut seen = visitor.hear(entrance.door(), now.moment);
        if let Seen::Asks(asked) = seen {
            let Ok(bytes) = self.answer(rt, sides, now, asked) else {
                return;
            };
            visitor.answer(bytes);
            // what comes behind it is dropped
            seen = visitor.hear(Door::Watchers, now.moment);
        }
        if seen == Seen::Stays && visitor.tell() == Seen::Stays {
            if let Some(entrance) = self.entrances.get_mut(index) {
                entrance.put_back(place, visitor);
            }
        }
    }

    fn answer<R: Wait>(
        &mut self,
        rt: &R,
        sides: &[Arc<LoopSide>],
        now: &Now,
        asked: Asked,
    ) -> Result<Bytes, AllocError> {
        match asked {
            Asked::Metrics => self.metrics(rt, sides, now),
            Asked::Ready => ready_reply(self.alloc, now.readiness),
            Asked::Drain => {
                self.drain.begin(now.moment);
                drain_reply(self.alloc)
            }
            Asked::Forbidden => forbidden_reply(self.alloc),
            Asked::Misdirected => misdirected_reply(self.alloc),
            Asked::OnlyGet => only_get_reply(self.alloc),
            Asked::OnlyPost => only_post_reply(self.alloc),
            Asked::NotFound => not_found_reply(self.alloc),
            Asked::Refused(refusal) => refusal_reply(self.alloc, refusal),
        }
    }

    /// The figures of all loops: those that were told last, while they are fresh.
    fn metrics<R: Wait>(
        &mut self,
        rt: &R,
        sides: &[Arc<LoopSide>],
        now: &Now,
    ) -> Result<Bytes, AllocError> {
        let made = match self.take_fresh(now.moment) {
            Some(made) => made,
            None => Made {
                moment: now.moment,
                text: self.figures(rt, sides, now)?,
            },
        };
        let reply = metrics_reply(self.alloc, &made.text);
        self.made = Some(made);
        reply
    }

    /// Takes the figures that were told last, if they are fresh at that moment.
    fn take_fresh(&mut self, moment: u64) -> Option<Made> {
        let made = self.made.take()?;
        (moment < made.moment.saturating_add(FRESH)).then_some(made)
    }

    /// The text of the figures of all loops.
    fn figures<R: Wait>(
        &self,
        rt: &R,
        sides: &[Arc<LoopSide>],
        now: &Now,
    ) -> Result<Bytes, AllocError> {
        let (mut totals, mut asked) = self.no_totals()?;
        let mut loops = Vec::new(self.alloc);
        let mut unserved = now.unserved;
        let mut rejections = Rejections::new();
        let mut broken: u64 = 0;
        let mut kept = KeptFigures::new();
        for side in sides {
            if let Some(counts) = &side.counts {
                counts.add_to(&mut totals);
                counts.add_branches_to(&mut asked);
                counts.add_rejections_to(&mut rejections);
            }
            unserved = unserved.saturating_add(side.unserved.load(Ordering::SeqCst));
            broken = broken.saturating_add(side.broken.load(Ordering::SeqCst));
            let standing = side.standing(rt);
            kept = kept.plus(&kept_figures(side, &standing.kept_counts));
            loops.push(LoopFigures {
                connections: side.open.load(Ordering::SeqCst),
                exchanges: standing.asking as u64,
                kept: standing.kept as u64,
            })?;
        }
        let figures = Figures {
            names: &self.names,
            totals: &totals,
            asked: &asked,
            loops: &loops,
            kept: self.keeps.then_some(kept),
            rejections: &rejections,
            streams_closed: unserved,
            connections_broken: broken,
            lines_left_out: self.dropped.load(Ordering::SeqCst),
        };
        metrics_text(self.alloc, &figures)
    }

    /// Totals of nothing, for each plan and what is no call, and for each branch.
    fn no_totals(&self) -> Result<(Vec<PlanTotals>, Vec<BranchTotals>), AllocError> {
        let mut totals = Vec::new(self.alloc);
        for _plan in 0..self.names.paths.len() {
            totals.push(PlanTotals::new())?;
        }
        totals.push(PlanTotals::new())?;
        let mut asked = Vec::new(self.alloc);
        for _branch in 0..self.names.branches.len() {
            asked.push(BranchTotals::new())?;
        }
        Ok((totals, asked))
    }
}

/// What became of the connections to backends of one loop.
fn kept_figures(side: &LoopSide, counts: &KeptCounts) -> KeptFigures {
    KeptFigures {
        opened: side.opened.load(Ordering::SeqCst),
        used: counts.used,
        expired: counts.expired,
        ended: counts.ended,
        unasked: counts.unasked,
        displaced: counts.displaced,
    }
}

/// What is told of the present.
#[derive(Clone, Copy, PartialEq, Eq, Debug)]
pub(crate) struct Now {
    /// The moment, in milliseconds since the start.
    pub(crate) moment: u64,
    pub(crate) readiness: Readiness,
    /// How many streams main closed without a byte.
    pub(crate) unserved: u64,
}
