ghost use Rattle.std.specs.Prelude.{◌≡◌, ◌↔◌, ◌++◌, [], IsFalse, None, false, option_to_list};
ghost use Rattle.branch_asking.specs.Addresses.{HasParsed, addresses_value, next_of, once_found};

use http_server::Log;
use std::alloc::Global;
use std::collections::VecDeque;
use std::marker::Model;
use std::net::SocketAddr;

/// The addresses of a job. Contracts see those that are to be tried, whether they are known, and all that were found for
/// its name.
#[derive(Drop)]
pub(crate) struct Addresses {
    // this one first, if there is one
    first: Option<SocketAddr>,
    others: VecDeque<SocketAddr>,
    is_known: bool,
    // for proofs
    found: Log<VecDeque<SocketAddr>, bool>,
}

impl Model for Addresses {
    ghost use Rattle.std.specs.List.{flat_map};
    ghost use Rattle.branch_asking.specs.Addresses.{AddressesValue, addresses_value};

    ghost Value = { AddressesValue };

    ghost view = { λ a. addresses_value a.first a.others.items a.is_known (flat_map (λ f. f.0.items) a.found.items) };
}

impl Addresses {
    /// None yet.
    pub(crate) fn new(alloc: Global) -> Addresses
        ensures { result ≡ addresses_value None [] false [] }
    {
        Addresses {
            first: None,
            others: VecDeque::new(alloc),
            is_known: false,
            found: Log::new(),
        }
    }

    /// Whether there is one that is to be tried.
    pub(crate) fn has_more(&self) -> bool
        ensures { IsFalse result ↔ (next_of self.now ≡ []) }
    {
        self.first.is_some() || !self.others.is_empty()
    }

    /// The next that is to be tried.
    pub(crate) fn next(&mut self) -> Option<SocketAddr>
        ensures next { next_of self.old ≡ option_to_list result ++ next_of self.new }
        ensures found { self.new.found ≡ self.old.found }
        ensures known { self.new.known ≡ self.old.known }
    {
        match self.first.take() {
            Some(address) => Some(address),
            None => self.others.pop_front(),
        }
    }

    /// Whether the text is that of an address, which is to be tried then, unless they are known.
    pub(crate) fn parse(&mut self, text: &str) -> bool
        ensures { HasParsed text.now result self.old self.new }
    {
        let Ok(address) = text.parse::<SocketAddr>() else {
            return false;
        };
        if !self.is_known {
            self.is_known = true;
            self.first = Some(address);
        }
        true
    }

    /// These were found. They are to be tried, in order, unless they are known.
    pub(crate) fn find(&mut self, found: VecDeque<SocketAddr>)
        ensures { self.new ≡ once_found found.items self.old }
    {
        if !self.is_known {
            self.is_known = true;
            self.found = Log::new().and(&found, &true);
            self.others = found;
        }
    }
}
