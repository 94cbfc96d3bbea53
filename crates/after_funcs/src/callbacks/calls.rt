ghost use Rattle.std.specs.Prelude.{◌≡◌, ◌+◌, ◌^◌, ◌<◌, ◌≤◌, List, [], ◌∷◌, Err, IfOk, IfErr, IfSome, IsOk, OnOk, OnErr};
ghost use Rattle.after_funcs.specs.Hooks.{Operation, AfterFunc, Fire, RunNext, Stop, registered, due, is_waiting, first_due, IsAnswerOfFirst};
ghost use Rattle.after_funcs.specs.Stands.{StandsFor, HasDue, IsUnchanged, HasRoom};
ghost use Rattle.after_funcs.specs.declared.error.AfterError.TheVariants.{Exhausted, Memory};

use super::AfterFuncs;
use crate::error::AfterError;
use crate::hook::Hook;
use crate::id::AfterId;
use crate::registration::Registration;
use context_tree::CtxId;
use std::alloc::{AllocError, Global};
use std::collections::VecDeque;

/// How many hooks may be registered in all.
const MAX_REGISTERED: u64 = 1 << 62;

impl<H> AfterFuncs<H> {
    /// No hooks. Later ones are kept on this allocator.
    pub fn new(alloc: Global) -> AfterFuncs<H>
        ensures { StandsFor result [] }
    {
        AfterFuncs {
            waiting: VecDeque::new(alloc),
            due: VecDeque::new(alloc),
            registered: 0,
        }
    }

    /// Registers a hook on a context. It waits until `fire` says that the context has ended; where the context is
    /// `done` already, the hook is due at once.
    ///
    /// A hook that is refused comes back, beside the reason: `Exhausted` once 2^62 hooks were registered, else
    /// `Memory`.
    pub fn after_func(
        &mut self,
        ctx: CtxId,
        done: bool,
        hook: H,
    ) -> Result<AfterId, (H, AfterError)>
        ensures id { (past : List (Operation H)) → StandsFor self.old past → IfOk result (λ id. id ≡ registered past) }
        ensures stands { (past : List (Operation H)) → StandsFor self.old past
            → OnOk result (StandsFor self.new (AfterFunc ctx done hook ∷ past)) }
        ensures unchanged { (past : List (Operation H)) → StandsFor self.old past
            → OnErr result (StandsFor self.new past) }
        ensures exhausted { (past : List (Operation H)) → StandsFor self.old past
            → 2 ^ 62 ≤ registered past → result ≡ Err (hook, Exhausted) }
        ensures memory { (past : List (Operation H)) → StandsFor self.old past
            → registered past < 2 ^ 62 → IfErr result (λ refused. refused ≡ (hook, Memory)) }
        ensures succeeds { (past : List (Operation H)) → StandsFor self.old past
            → registered past < 2 ^ 62 → HasRoom self.old → IsOk result }
    {
        if self.registered >= MAX_REGISTERED {
            return Err((hook, AfterError::Exhausted));
        }
        if self.reserve().is_err() {
            return Err((hook, AfterError::Memory));
        }
        let id = AfterId::of(self.registered);
        self.registered += 1;
        let registration = Registration { id, ctx, hook };
        if done {
            self.due.push_back_reserved(registration);
        } else {
            self.waiting.push_back_reserved(registration);
        }
        Ok(id)
    }

    /// Makes room for one hook more, both to wait and to become due behind all others.
    fn reserve(&mut self) -> Result<(), AllocError>
        ensures unchanged { IsUnchanged self.old self.new }
        ensures room { OnOk result (HasRoom self.new) }
        ensures succeeds { HasRoom self.old → IsOk result }
    {
        self.waiting.reserve(1)?;
        self.due.reserve(self.waiting.len() + 1)
    }

    /// The context has ended: its waiting hooks become due, in order of registration.
    pub fn fire(&mut self, ctx: CtxId)
        ensures { (past : List (Operation H)) → StandsFor self.old past → StandsFor self.new (Fire ctx ∷ past) }
    {
        for _ in 0..self.waiting.len() {
            let Some(registration) = self.waiting.pop_front() else {
                return;
            };
            if registration.ctx == ctx {
                self.due.push_back_reserved(registration);
            } else {
                self.waiting.push_back_reserved(registration);
            }
        }
    }

    /// The first due hook, and its context.
    pub fn due(&self) -> Option<(AfterId, CtxId)>
        ensures { (past : List (Operation H)) → StandsFor self.now past → result ≡ first_due (due past) }
    {
        let first = self.due.front()?;
        Some((first.id, first.ctx))
    }

    /// Calls the first due hook with the event, and tells what it answered. The hook is consumed, also where it found
    /// no memory. With nothing due the answer is None.
    pub fn run_next<E: Drop, O>(&mut self, event: E) -> Option<(AfterId, Result<O, AllocError>)>
    where
        H: Hook<E, O>,
        requires { HasDue self.old → H.allows event }
        ensures called { (past : List (Operation H)) → StandsFor self.old past
            → IsAnswerOfFirst H.gives event (due past) result }
        ensures duty { IfSome result (λ ran. IfOk ran.1 (λ answer. H.meets event answer)) }
        ensures stands { (past : List (Operation H)) → StandsFor self.old past → StandsFor self.new (RunNext ∷ past) }
    {
        let Registration { id, ctx: _, hook } = self.due.pop_front()?;
        Some((id, hook.run(event)))
    }
}

impl<H: Drop> AfterFuncs<H> {
    /// Drops the hook uncalled where it waits, and tells whether it did. A hook that is due still runs, as in Go.
    pub fn stop(&mut self, id: AfterId) -> bool
        ensures waited { (past : List (Operation H)) → StandsFor self.old past → result ≡ is_waiting id past }
        ensures stands { (past : List (Operation H)) → StandsFor self.old past → StandsFor self.new (Stop id ∷ past) }
    {
        let waiting = self.waiting.len();
        self.waiting.retain(|registration| registration.id != id);
        self.waiting.len() < waiting
    }
}
