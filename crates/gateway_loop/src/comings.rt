ghost use Rattle.std.specs.Prelude.{◌≡◌, [], None, false};

use gateway_core::Stock;
use std::alloc::Global;
use std::collections::VecDeque;
use std::marker::Model;
use std::net::SocketAddr;
use wires::{Ready, Wire};

/// A client's stream, which was accepted, and of which nothing was read or written yet, and the hooks of its connection.
#[derive(Drop)]
pub struct Dealt<H, W: Wire> {
    wire: W,
    stock: Stock<H>,
}

impl<H, W: Wire> Model for Dealt<H, W> {
    ghost use Rattle.gateway_loop.specs.Clients.{IsFresh};
    ghost use Rattle.wires.specs.Turns.{ended_of, given_of, got_of};

    ghost Value = { Unit {0} };

    ghost view = { λ d. tt };

    ghost invariant = { λ d. IsFresh (W.peer d.wire) (given_of (W.turns d.wire)) (got_of (W.turns d.wire)) (ended_of (W.turns d.wire)) };
}

impl<H, W: Wire> Dealt<H, W> {
    ghost use Rattle.gateway_loop.specs.Clients.{IsFresh};
    ghost use Rattle.wires.specs.Turns.{ended_of, given_of, got_of};

    pub fn new(wire: W, stock: Stock<H>) -> Dealt<H, W>
        requires given { given_of (W.turns wire) ≡ [] }
        requires got { got_of (W.turns wire) ≡ [] }
        requires ended { ended_of (W.turns wire) ≡ false }
        requires peer { W.peer wire ≡ None }
    {
        Dealt { wire, stock }
    }

    pub(crate) fn into_parts(self) -> (W, Stock<H>)
        ensures { IsFresh (W.peer result.0) (given_of (W.turns result.0)) (got_of (W.turns result.0)) (ended_of (W.turns result.0)) }
    {
        let Dealt { wire, stock } = self;
        (wire, stock)
    }
}

/// The addresses of a name that was looked up, in order. None where there is no such name.
#[derive(Drop)]
pub struct LookedUp {
    pub name: String,
    pub addresses: Vec<SocketAddr>,
}

impl Model for LookedUp {
    ghost use Rattle.std.specs.Prelude.{string_bytes};
    ghost use Rattle.loop_model.specs.Found.{FoundValue, found_value};

    ghost Value = { FoundValue };

    ghost view = { λ l. found_value (string_bytes l.name) l.addresses.items };
}

impl LookedUp {
    /// The name, `host:port`.
    pub(crate) fn name(&self) -> &str
        ensures { result.now ≡ self.now.name }
    {
        self.name.as_str()
    }

    /// The addresses.
    pub(crate) fn addresses(&self) -> &[SocketAddr]
        ensures { result.now ≡ self.now.addresses }
    {
        self.addresses.as_slice()
    }
}

/// What a wait brought. A turn takes all of it.
#[derive(Drop)]
pub struct Comings<H, W: Wire> {
    pub ready: Vec<Ready>,
    pub streams: VecDeque<Dealt<H, W>>,
    pub found: VecDeque<LookedUp>,
}

impl<H, W: Wire> Comings<H, W> {
    /// Nothing. Later ones are kept on this allocator.
    pub fn new(alloc: Global) -> Comings<H, W> {
        Comings {
            ready: Vec::new(alloc),
            streams: VecDeque::new(alloc),
            found: VecDeque::new(alloc),
        }
    }
}
