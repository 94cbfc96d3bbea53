ghost use Rattle.std.specs.List.{Contains};
ghost use Rattle.std.specs.Prelude.{◌≡◌, [], is_some, true, IfOk, OnErr, OnOk};
ghost use Rattle.gateway_loop.specs.Names.{Adds, AsksFor, Leaves, is_among};

use branch_asking::Network;
use slab::Slab;
use std::alloc::{AllocError, Global};
use std::collections::BTreeMap;
use std::marker::Model;
use wires::Wire;

/// The names that are looked up, each with the places of the exchanges that wait for it. Contracts see the names.
#[derive(Drop)]
pub(crate) struct Names {
    alloc: Global,
    places: BTreeMap<String, Slab<usize>>,
}

impl Model for Names {
    ghost use Rattle.std.specs.Prelude.{ℕ, List};
    ghost use Rattle.gateway_loop.specs.Names.{names_of};

    ghost Value = { List (List ℕ) };

    ghost view = { λ n. names_of n.places.entries };
}

impl Names {
    /// None yet.
    pub(crate) fn new(alloc: Global) -> Names
        ensures { result ≡ [] }
    {
        Names {
            alloc,
            places: BTreeMap::new(alloc),
        }
    }

    /// Whether exchanges wait for the name, which was looked up for them.
    pub(crate) fn waits_for(&self, name: &str) -> bool
        ensures { result ≡ is_among name.now self.now }
    {
        self.places.contains_key(name)
    }

    /// The exchange in that place waits for the name, which is looked up once for all who wait for it: its number
    /// among these. None where the name can't be looked up.
    pub(crate) fn wait<W: Wire, N: Network<W>>(
        &mut self,
        net: &mut N,
        name: &str,
        place: usize,
    ) -> Result<Option<usize>, AllocError>
        ensures asks { AsksFor name.now (N.value net.old) (N.value net.new) self.old self.new }
        ensures waits { IfOk result (λ number. is_some number ≡ true → Contains self.new name.now) }
    {
        if let Some(places) = self.places.get_mut(name) {
            return Ok(Some(places.insert(place)?));
        }
        // before the network is asked, so that it is not for one that nobody waits for
        let number = self.add(name, place)?;
        if !net.look_up(name) {
            let _places = self.places.remove(name);
            return Ok(None);
        }
        Ok(Some(number))
    }

    /// The exchange in that place is the first that waits for the name: its number among those that do.
    fn add(&mut self, name: &str, place: usize) -> Result<usize, AllocError>
        ensures adds { OnOk result (Adds name.now self.old self.new) }
        ensures stays { OnErr result (self.new ≡ self.old) }
    {
        let mut places = Slab::new(self.alloc);
        let number = places.insert(place)?;
        let key = String::from_str(self.alloc, name)?;
        let _known = self.places.insert(key, places)?;
        Ok(number)
    }

    /// Who waits under this number, if there is one, waits no more.
    pub(crate) fn leave(&mut self, name: &str, number: Option<usize>)
        ensures { self.new ≡ self.old }
    {
        let Some(number) = number else {
            return;
        };
        if let Some(places) = self.places.get_mut(name) {
            let _place = places.try_remove(number);
        }
    }

    /// The name was looked up. The places of those who wait for it.
    pub(crate) fn found(&mut self, name: &str) -> Option<Slab<usize>>
        ensures { Leaves name.now self.old self.new }
    {
        self.places.remove(name)
    }
}
