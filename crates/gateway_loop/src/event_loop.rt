ghost use Rattle.std.specs.Prelude.{◌≡◌, ◌-◌, ◌==◌, is_some, length, IfOk};
ghost use Rattle.gateway_model.specs.History.{no_history};
ghost use Rattle.gateway_theory.specs.Gateway.{jobs_of};
ghost use Rattle.connect_codec.specs.declared.answer.Outcome.{Outcome};
ghost use Rattle.loop_model.specs.Accounts.{AccountsFor, NetworkValue, first_account};
ghost use Rattle.loop_model.specs.Holding.{Holds};
ghost use Rattle.loop_model.specs.Standing.{count_clients, count_lingering};
ghost use Rattle.loop_model.specs.Whole.{IsExplainedLoop};
ghost use Rattle.gateway_loop.specs.Loop.{StartsLoop};

use crate::clients::Clients;
use crate::closing::ClosingStreams;
use crate::comings::LookedUp;
use crate::ends::Ends;
use crate::kept::{KeptCounts, KeptStreams};
use crate::limits::{MOST_CLIENTS, MOST_EXCHANGES};
use crate::names::Names;
use crate::next_turn::NextTurn;
use crate::unasked::Unasked;
use branch_asking::{Asking, Backend};
use call_plan::Plans;
use connect_codec::Outcome;
use gateway_core::{ReplyHook, Tally};
use http_pieces::Framing;
use http_server::Log;
use loop_model::Manner;
use slab::Slab;
use std::alloc::{AllocError, Global};
use std::collections::VecDeque;
use std::marker::Model;
use wires::Wire;

/// How a loop stands.
#[derive(Clone, Copy, PartialEq, Eq, Debug)]
pub struct LoopStanding {
    /// Connections that are open.
    pub open: usize,
    /// Connections that are closed and linger.
    pub lingering: usize,
    /// Exchanges with backends that are under way.
    pub asking: usize,
    /// Jobs that wait for a place.
    pub waiting: usize,
    /// Streams to backends that are kept, and what became of those that were.
    pub kept: usize,
    pub kept_counts: KeptCounts,
    /// How the results were seen.
    pub tally: Tally,
}

/// A gateway's core with its clients' streams, and the jobs that are asked for, by their places. Whatever is done by
/// its functions, each job that was taken is asked for, or has one result, which is that of its exchange
/// (`explained_law`).
#[derive(Drop)]
pub struct EventLoop<H, W: Wire> {
    pub(crate) alloc: Global,
    // how backends are asked
    pub(crate) manner: Manner,
    // the core and its clients
    pub(crate) clients: Clients<H, W>,
    pub(crate) asking: Slab<Asking<W>>,
    // so many places have exchanges, or had some since none was there
    pub(crate) places: usize,
    // the streams that are kept, to be used again
    pub(crate) kept: KeptStreams<W>,
    // the streams that wait for their backends' ends
    pub(crate) closing: ClosingStreams<W>,
    // for proofs: those that ended, each with the outcome that was recorded, the streams that they left, and what was
    // found for names
    pub(crate) ended: Log<Asking<W>, Option<Outcome>>,
    pub(crate) left: Log<Backend<W>, ()>,
    pub(crate) looked_up: Log<LookedUp, bool>,
    pub(crate) names: Names,
    pub(crate) ends: Ends,
    pub(crate) unasked: Unasked,
    // the places of clients for whom something may be there
    pub(crate) noted: VecDeque<usize>,
    // what the last look told
    pub(crate) next: NextTurn,
}

impl<H, W: Wire> Model for EventLoop<H, W> {
    ghost use Rattle.std.specs.Prelude.{[], map};
    ghost use Rattle.loop_model.specs.Whole.{AsksFairly, WholeLoop};
    ghost use Rattle.gateway_loop.specs.Loop.{AreMannered, beside, whole_loop};

    ghost Value = { WholeLoop };

    ghost view = { λ l. whole_loop l.manner l.clients l.asking.slots l.ended.items (beside l.kept (map (λ s. s.0.stream) l.left.items) l.closing (map (λ f. f.0) l.looked_up.items) l.names) };

    ghost invariant = { λ l. AsksFairly (whole_loop l.manner l.clients l.asking.slots l.ended.items (beside l.kept (map (λ s. s.0.stream) l.left.items) [] (map (λ f. f.0) l.looked_up.items) []))
        × AreMannered l.manner l.asking.slots };
}

impl<H: ReplyHook + Drop, W: Wire + Drop> EventLoop<H, W> {
    /// A loop that serves these plans, with no client. Replies of backends may be framed so, and connections to them
    /// are kept for so many milliseconds, to be used again; None where none is.
    pub fn new(
        alloc: Global,
        plans: Plans,
        framing: Framing,
        keep: Option<u64>,
    ) -> Result<EventLoop<H, W>, AllocError>
        ensures manner { IfOk result (λ l. l.manner ≡ record { framing = framing; keeps = is_some keep }) }
        ensures plans { IfOk result (λ l. l.side.core.plans ≡ plans) }
        ensures starts { IfOk result StartsLoop }
        ensures serves { IfOk result (λ l. (unknown : Outcome) → Holds unknown no_history l.side) }
        ensures accounts { IfOk result (λ l. (a : NetworkValue) → AccountsFor (first_account a) a l) }
    {
        let manner = Manner {
            framing,
            keeps: keep.is_some(),
        };
        Ok(EventLoop {
            alloc,
            manner,
            names: Names::new(alloc),
            ends: Ends::new(alloc)?,
            unasked: Unasked::new(alloc),
            noted: VecDeque::with_capacity(alloc, 2 * MOST_CLIENTS)?,
            next: NextTurn::AtOnce,
            asking: Slab::with_capacity(alloc, MOST_EXCHANGES)?,
            places: 0,
            clients: Clients::new(alloc, plans)?,
            kept: KeptStreams::new(alloc, keep),
            closing: ClosingStreams::new(alloc)?,
            ended: Log::new(),
            left: Log::new(),
            looked_up: Log::new(),
        })
    }

    /// How the loop stands.
    pub fn standing(&self) -> LoopStanding
        ensures open { result.open ≡ count_clients self.now.side.clients - count_lingering self.now.side.clients }
        ensures lingering { result.lingering ≡ count_lingering self.now.side.clients }
        ensures waiting { result.waiting ≡ length (jobs_of self.now.side.core) }
        ensures kept { result.kept ≡ length self.now.kept }
        ensures tally { result.tally ≡ self.now.side.core.tally }
    {
        let lingering = self.clients().lingering();
        LoopStanding {
            open: self.clients().len().saturating_sub(lingering),
            lingering,
            asking: self.asking.len(),
            waiting: self.clients().core().waiting_jobs(),
            kept: self.kept.len(),
            kept_counts: self.kept.counts(),
            tally: self.clients().core().tally(),
        }
    }

    /// Whether no connection is open, and none lingers.
    pub fn is_empty(&self) -> bool
        ensures { result ≡ (count_clients self.now.side.clients == 0) }
    {
        self.clients().len() == 0
    }

    /// One history explains all that this loop's clients brought and got, and each result is that of an exchange. It
    /// does nothing.
    pub fn explained_law(&self)
        ensures { IsExplainedLoop self.now }
    {
        self.clients.explained_law();
    }

    /// The core and its clients.
    pub(crate) fn clients(&self) -> &Clients<H, W>
        ensures { result.now ≡ self.now.side }
    {
        &self.clients
    }
}
