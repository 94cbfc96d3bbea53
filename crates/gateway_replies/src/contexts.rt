//! The contexts of the open connections, of their undecided calls and of these calls' branches, found by the
//! connections' numbers, the calls' ids and the branches' numbers.
mod cancelled;
mod deadline;
mod peer;

ghost use Rattle.std.specs.Prelude.{All, ◌≡◌, ◌<◌, ◌==◌, [], IfErr, IfNone, IfOk, IfSome, None as Nothing, OnErr, OnOk, Some as Just, filter, false, length, not, option_map, true};
ghost use Rattle.std.specs.Arc.{arc_value};
ghost use Rattle.std.specs.List.{list_any};
ghost use Rattle.gateway_replies.specs.Contexts.{IsNotDue, KeepsOthers, LivesApart, begun, closed, ctx_of, ending_life, event_of, finished, first_life, has_due, has_ended, is_life, is_over, is_peer, no_contexts, IsNext, numbers_of, opened, started, told, without, without_calls};
ghost use Rattle.gateway_model.specs.Duty.{MeetsDuty};
ghost use Rattle.gateway_model.specs.declared.id.CallId.{CallId as AnyCall};
ghost use Rattle.gateway_replies.specs.Hooks.{BringsHooks, CallsHook, DropsHook, DropsHooks, KeepsHooks, KeepsStocks, MayLoseHook, TakesAtMostOne, TakesHook, hook_of, hooks_of_others, none_hooked, stock_in};
ghost use Rattle.gateway_replies.specs.Ties.{AreOthers, IsAt, Takes, peer_ties, stock_ties};
ghost use Rattle.call_contexts.specs.Sound.{Rising};

use crate::arrived_call::ArrivedCall;
use crate::contexts::cancelled::CancelledBy;
use crate::contexts::peer::{Peer, take_first};
use crate::hook::ReplyHook;
use crate::stock::Stock;
use call_contexts::CallContexts;
use context_tree::{Cause, CtxId};
use gateway_model::{CallEvent, CallId, Ending};
use gateway_theory::Trigger;
use http_pieces::Bytes;
use http_server::Log;
use std::alloc::{AllocError, Global};
use std::marker::Model;
use std::sync::Arc;

/// The contexts of the open connections, of their undecided calls and of these calls' branches that are out and have a
/// timeout; and the hooks of these calls.
#[derive(Drop)]
pub struct Contexts<H> {
    contexts: CallContexts<CancelledBy, Arc<Bytes>, H>,
    /// One of each connection that is open and not broken, by their numbers.
    peers: Vec<Peer<H>>,
    /// The calls whose hooks were called, with what each was told.
    called: Log<CallId, Ending>,
}

impl<H> Model for Contexts<H> {
    ghost use Rattle.std.specs.Arc.{arc_value};
    ghost use Rattle.gateway_replies.specs.Contexts.{IsTied, contexts_of, names_in};
    ghost use Rattle.gateway_replies.specs.Hooks.{HookedContexts, hooked};
    ghost use Rattle.gateway_replies.specs.Ties.{hooks_of, peer_ties, stock_ties};

    ghost Value = { HookedContexts H };

    ghost view = { λ c. hooked
        (contexts_of arc_value (peer_ties c.peers.items) c.contexts.standing)
        (stock_ties c.peers.items)
        (hooks_of (names_in c.contexts.standing.calls) c.contexts.hooks)
        c.called.items };

    ghost invariant = { λ c. IsTied (peer_ties c.peers.items) c.contexts.standing };
}

impl<H: ReplyHook + Drop> Contexts<H> {
    /// Of no connection.
    pub fn new(alloc: Global) -> Result<Contexts<H>, AllocError>
        ensures { IfOk result (λ contexts. contexts ≡ none_hooked) }
    {
        Ok(Contexts {
            contexts: CallContexts::new(alloc)?,
            peers: Vec::new(alloc),
            called: Log::new(),
        })
    }

    /// A connection opens, with a number above those of the others, its context and its hooks. Where memory is refused
    /// the hooks come back.
    pub fn open(&mut self, number: u64, stock: Stock<H>) -> Result<(), Stock<H>>
        requires { IsNext number self.old.standing.conns }
        ensures ok { OnOk result (self.new.standing ≡ opened number self.old.standing) }
        ensures hooks { OnOk result (BringsHooks number stock self.old self.new) }
        ensures back { IfErr result (λ back. back ≡ stock) }
        ensures err { OnErr result (self.new ≡ self.old) }
    {
        if self.peers.reserve(1).is_err() {
            return Err(stock);
        }
        let Ok(ctx) = self.contexts.open() else {
            return Err(stock);
        };
        let stock = stock.into_hooks();
        self.peers.push_reserved(Peer { number, ctx, stock });
        Ok(())
    }

    /// A call begins on its connection, with the next of the connection's hooks.
    pub fn begin(&mut self, id: &CallId, asked: &ArrivedCall, now: u64) -> Result<(), AllocError>
        requires known { is_peer id.now.conn self.old.standing.conns ≡ true }
        requires fresh { is_life id.now self.old.standing.calls ≡ false }
        requires stocked { stock_in id.now.conn self.old.stocks ≡ Just [] → ⊥ }
        ensures ok { OnOk result (self.new.standing ≡ begun now id.now asked.now self.old.standing) }
        ensures hook { OnOk result (TakesHook id.now self.old self.new) }
        ensures others { KeepsStocks id.now.conn self.old.stocks self.new.stocks }
        ensures err { OnErr result (self.new.standing ≡ self.old.standing) }
        ensures lost { OnErr result (MayLoseHook id.now.conn self.old self.new) }
        ensures takes { TakesAtMostOne id.now.conn self.old self.new }
    {
        self.contexts.apart_law();
        let request_id = shared(&asked.request_id)?;
        let Some(taken) = take_hook(&mut self.peers, id.conn.number()) else {
            unreachable!();
        };
        let (conn, hook) = taken;
        let Ok(_) = self
            .contexts
            .begin(id, conn, asked.deadline, now, request_id, hook)
        else {
            return Err(AllocError);
        };
        Ok(())
    }

    /// Tells the contexts what may end calls: those of the calls and branches that this ends have ended.
    pub fn tell(&mut self, trigger: &Trigger)
        ensures ended { self.new.standing ≡ told trigger.now self.old.standing }
        ensures hooks { KeepsHooks self.old self.new }
    {
        match trigger {
            Trigger::Reached(moment) => self.contexts.expire(*moment),
            Trigger::HungUp(number) => {
                if let Some(conn) = ctx_of(&self.peers, *number) {
                    self.contexts.cancel(conn, CancelledBy::HangUp);
                }
            }
            Trigger::Drained => self.contexts.drain(CancelledBy::Drain),
        }
    }

    /// Whether a call's context or a branch's ends at this moment: it has reached the least of their deadlines.
    pub fn is_due(&self, moment: u64) -> bool
        ensures exact { result ≡ list_any (has_due moment) self.now.standing.calls }
        ensures not_due { result ≡ false → All (IsNotDue moment) self.now.standing.calls }
    {
        match self.contexts.next_deadline() {
            Some(deadline) => deadline <= moment,
            None => false,
        }
    }

    /// The event by which the call ends at this moment, as the contexts tell it: the hang-up of its connection's peer
    /// or the drain, or of the deadlines of the call and of its branches the least that has been reached. None where
    /// nothing has, or the call has no context.
    pub fn ending(&self, id: &CallId, moment: u64) -> Option<CallEvent>
        ensures { result ≡ ending_life moment id.now self.now.standing.calls }
    {
        let ended = self.contexts.ended(id);
        let branch = self.contexts.ended_branch(id);
        event_of(ended, branch, moment)
    }

    /// A call that has ended, by its own context or by that of a branch, if one is left.
    pub fn first_ended(&mut self) -> Option<CallId>
        ensures same { self.new ≡ self.old }
        ensures its { IfSome result (λ id. list_any (has_ended id) self.old.standing.calls ≡ true) }
        ensures none { IfNone result (list_any is_over self.old.standing.calls ≡ false) }
    {
        self.contexts.first_ended()
    }

    /// A branch of the call that has a timeout starts at this moment: its context ends at `at`, or with its call's.
    pub fn start(&mut self, id: &CallId, branch: u32, at: u64, now: u64) -> Result<(), AllocError>
        requires { is_life id.now self.old.standing.calls ≡ true }
        ensures ok { OnOk result (self.new.standing ≡ started id.now branch at now self.old.standing) }
        ensures hooks { KeepsHooks self.old self.new }
        ensures err { OnErr result (self.new ≡ self.old) }
    {
        let Some(ctx) = self.contexts.ctx_for(id) else {
            unreachable!();
        };
        self.contexts.apart_law();
        self.contexts.branch(ctx, branch, at, now)
    }

    /// Lets go of the context of that branch of the call, if it has one.
    pub fn finish(&mut self, id: &CallId, branch: u32)
        ensures finished { self.new.standing ≡ finished id.now branch self.old.standing }
        ensures hooks { KeepsHooks self.old self.new }
    {
        let Some(ctx) = self.contexts.ctx_for(id) else {
            return;
        };
        self.contexts.apart_law();
        self.contexts.let_branch_go(ctx, branch);
    }

    /// Calls the hook of the call with what ended it, and lets go of its context and of its branches'.
    pub fn end(&mut self, id: &CallId, ending: Ending) -> Result<Bytes, AllocError>
        requires { is_life id.now self.old.standing.calls ≡ true }
        ensures duty { IfOk result (λ bytes. MeetsDuty ending bytes) }
        ensures called { (hook : H) → hook_of id.now self.old.hooks ≡ Just hook → H.gives hook ending result }
        ensures gone { self.new.standing ≡ without id.now self.old.standing }
        ensures hooks { CallsHook id.now ending self.old self.new }
    {
        let Some(ctx) = self.contexts.ctx_for(id) else {
            unreachable!();
        };
        self.contexts.apart_law();
        self.called = self.called.and(id, &ending);
        match self.contexts.end(ctx, ending) {
            Some(answer) => answer,
            None => unreachable!(),
        }
    }

    /// Drops the hook of the call uncalled, if it has one, and lets go of its context and of its branches'.
    pub fn abandon(&mut self, id: &CallId)
        ensures gone { self.new.standing ≡ without id.now self.old.standing }
        ensures hooks { DropsHook id.now self.old self.new }
    {
        let Some(ctx) = self.contexts.ctx_for(id) else {
            return;
        };
        self.contexts.apart_law();
        self.contexts.abandon(ctx);
    }

    /// Drops all hooks of the connection of that number uncalled, and lets go of its contexts.
    pub fn close(&mut self, number: u64)
        ensures closed { self.new.standing ≡ closed number self.old.standing }
        ensures hooks { DropsHooks number self.old self.new }
    {
        self.abandon_all(number);
        self.let_go(number);
    }

    /// No call has two contexts. It does nothing.
    pub fn apart_law(&self)
        ensures { LivesApart self.now.standing.calls }
    {
        let _ = &self.peers;
    }

    /// Where a call's context goes, nothing changes but for the calls of its connection. It does nothing.
    pub fn others_law(&self)
        ensures { (id : AnyCall) → KeepsOthers id.conn self.now.standing (without id self.now.standing) }
    {
        let _ = &self.peers;
    }

    /// Lets go of the context of a connection, of which no call has one.
    fn let_go(&mut self, number: u64)
        requires { first_life number self.old.standing.calls ≡ Nothing }
        ensures closed { self.new.standing ≡ closed number self.old.standing }
        ensures hooks { DropsHooks number self.old self.new }
    {
        let Some(conn) = remove_peer(&mut self.peers, number) else {
            return;
        };
        self.contexts.close(conn);
    }

    /// Drops the hooks of all calls of the connection of that number.
    fn abandon_all(&mut self, number: u64)
        ensures gone { self.new.standing ≡ without_calls number self.old.standing }
        ensures none { first_life number self.new.standing.calls ≡ Nothing }
        ensures stocks { self.new.stocks ≡ self.old.stocks }
        ensures hooks { hooks_of_others number self.new.hooks ≡ hooks_of_others number self.old.hooks }
        ensures called { self.new.called ≡ self.old.called }
    {
        while let Some(id) = self.contexts.first_call(number) {
            self.abandon(&id);
        }
    }
}

/// The event by which a call ends at a moment, whose context ended so, and of which that branch ended before it.
fn event_of(
    ended: Option<Cause<CancelledBy>>,
    branch: Option<u32>,
    moment: u64,
) -> Option<CallEvent>
    ensures { result ≡ event_of moment ended branch }
{
    match ended {
        Some(Cause::Given(CancelledBy::HangUp)) => Some(CallEvent::HungUp),
        Some(Cause::Given(CancelledBy::Drain)) => Some(CallEvent::Drained),
        Some(Cause::Plain(_)) => match branch {
            Some(branch) => Some(CallEvent::BranchExpired(branch, moment)),
            None => Some(CallEvent::Expired(moment)),
        },
        None => match branch {
            Some(branch) => Some(CallEvent::BranchExpired(branch, moment)),
            None => None,
        },
    }
}

/// Where the connection of that number stands. They stand by their numbers.
fn place<H>(peers: &[Peer<H>], number: u64) -> Option<usize>
    requires { Rising (numbers_of (peer_ties peers.now)) }
    ensures some { IfSome result (λ i. i < length peers.now) }
    ensures its { IfSome result (λ i. IsAt number i peers.now) }
    ensures none { IfNone result (AreOthers number (length peers.now) peers.now) }
{
    match peers.binary_search_by_key(&number, |peer| peer.number) {
        Ok(place) => Some(place),
        Err(_) => None,
    }
}

/// The context of the connection of that number.
fn ctx_of<H>(peers: &[Peer<H>], number: u64) -> Option<CtxId>
    requires { Rising (numbers_of (peer_ties peers.now)) }
    ensures { result ≡ ctx_of number (peer_ties peers.now) }
{
    let place = place(peers, number)?;
    Some(peers[place].ctx)
}

/// The context of the connection of that number, and its next hook.
fn take_hook<H>(peers: &mut Vec<Peer<H>>, number: u64) -> Option<(CtxId, H)>
    requires { Rising (numbers_of (peer_ties peers.old.items)) }
    ensures ties { peer_ties peers.new.items ≡ peer_ties peers.old.items }
    ensures ctx { IfSome result (λ taken. ctx_of number (peer_ties peers.old.items) ≡ Just taken.0) }
    ensures taken { Takes number (option_map (λ taken. taken.1) result) (stock_ties peers.old.items) (stock_ties peers.new.items) }
{
    let place = place(peers, number)?;
    let peer = &mut peers[place];
    let hook = take_first(&mut peer.stock)?;
    Some((peer.ctx, hook))
}

/// Leaves the connections of other numbers, and gives the context of the one that is gone.
fn remove_peer<H: Drop>(peers: &mut Vec<Peer<H>>, number: u64) -> Option<CtxId>
    requires { Rising (numbers_of (peer_ties peers.old.items)) }
    ensures ctx { result ≡ ctx_of number (peer_ties peers.old.items) }
    ensures left { IfSome result (λ _. peers.new.items ≡ filter (λ p. not (p.number == number)) peers.old.items) }
    ensures same { IfNone result (peers.new.items ≡ peers.old.items) }
{
    let place = place(peers, number)?;
    let peer = peers.remove(place);
    Some(peer.ctx)
}

/// The request id, shared once more.
fn shared(request_id: &Option<Arc<Bytes>>) -> Result<Option<Arc<Bytes>>, AllocError>
    ensures { IfOk result (λ shared. option_map arc_value shared ≡ option_map arc_value request_id.now) }
{
    match request_id {
        Some(request_id) => Ok(Some(Arc::try_clone(request_id)?)),
        None => Ok(None),
    }
}
