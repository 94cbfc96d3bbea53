//! The branches of a call.
ghost use Rattle.std.specs.Prelude.{◌≡◌, ◌∷◌, ◌++◌, [], List, IfNone, IfOk, IfSome, None as Nothing, OnErr, Some as Just};
ghost use Rattle.std.specs.Option.{option_map_or};
ghost use Rattle.context_tree.specs.Context.{Id};
ghost use Rattle.call_contexts.specs.Standing.{if_before};
ghost use Rattle.call_contexts.specs.Sound.{IsStarted, IsWithout, drop_twig, soonest_of, sooner_twig};

use crate::twig::Twig;
use context_tree::{CtxId, Tree};
use std::alloc::{AllocError, Global};
use std::marker::Model;

/// The branches of a call that are out and have a timeout, by start.
#[derive(Drop)]
pub(crate) struct Twigs {
    items: Vec<Twig>,
}

impl Model for Twigs {
    ghost use Rattle.std.specs.Prelude.{List};
    ghost use Rattle.call_contexts.specs.declared.twig.Twig.{Twig};

    ghost Value = { List Twig };

    ghost view = { λ t. t.items.items };
}

impl Twigs {
    /// No branch.
    pub(crate) fn new(alloc: Global) -> Twigs
        ensures { result ≡ [] }
    {
        Twigs {
            items: Vec::new(alloc),
        }
    }

    /// The branch of the least deadline, and of equal ones the first.
    pub(crate) fn soonest(&self) -> Option<Twig>
        ensures { result ≡ soonest_of self.now }
    {
        let mut least: Option<Twig> = None;
        for twig in &self.items {
            least = Some(sooner(least, *twig));
        }
        least
    }

    /// A branch of the call of that context starts, with a context that ends at this moment or with its call's.
    pub(crate) fn start<C: Copy, V: Drop>(
        &mut self,
        tree: &mut Tree<C, V>,
        call: CtxId,
        branch: u32,
        at: u64,
        now: u64,
    ) -> Result<(), AllocError>
        ensures made { IfOk result (λ _. IsStarted call branch at now self.old self.new tree.old tree.new) }
        ensures same_twigs { OnErr result (self.new ≡ self.old) }
        ensures same_tree { OnErr result (tree.new ≡ tree.old) }
    {
        self.items.reserve(1)?;
        let Ok(ctx) = tree.with_deadline(call, at, now, None) else {
            return Err(AllocError);
        };
        self.items.push_reserved(Twig { ctx, branch, at });
        Ok(())
    }

    /// Takes the first branch of that number, if there is one.
    pub(crate) fn take(&mut self, branch: u32) -> Option<Twig>
        ensures taken { IfSome result (λ t. IsWithout t self.old self.new) }
        ensures none { IfNone result (self.new ≡ self.old) }
        ensures first { self.new ≡ drop_twig branch self.old }
    {
        for index in 0..self.items.len() {
            if self.items[index].branch == branch {
                return Some(self.items.remove(index));
            }
        }
        None
    }

    /// Takes the last branch, if there is one.
    pub(crate) fn take_last(&mut self) -> Option<Twig>
        ensures taken { IfSome result (λ t. IsWithout t self.old self.new) }
        ensures none { IfNone result (self.old ≡ []) }
        ensures unchanged { IfNone result (self.new ≡ self.old) }
    {
        self.items.pop()
    }
}

/// The one of the lesser deadline, and of equal ones the first.
fn sooner(first: Option<Twig>, twig: Twig) -> Twig
    ensures { result ≡ option_map_or (λ t. sooner_twig t (Just twig)) first twig }
{
    match first {
        Some(other) => { if other.at <= twig.at { other } else { twig } }
        None => twig,
    }
}

/// The number of a branch, where its deadline is before its call's.
pub(crate) fn if_before(twig: Twig, call: Option<u64>) -> Option<u32>
    ensures { result ≡ if_before call twig.at twig.branch }
{
    match call {
        Some(at) if at <= twig.at => None,
        _ => Some(twig.branch),
    }
}
