ghost use Rattle.std.specs.Prelude.{◌≡◌, [], Some, length};
ghost use Rattle.connections.specs.Pumps.{bytes_heard};

use crate::room::{copy_of, make_room};
use connections::{Fed, Heard, Inlet};
use std::alloc::Global;
use std::marker::Model;
use std::sync::Wait;
use std::time::Clock;

/// An inlet that keeps all that it is given.
#[derive(Drop)]
pub struct MemoryInlet {
    alloc: Global,
    heard: Vec<Heard>,
    // so many pieces it answers by `Go`, and those behind them by `then`
    goes: u64,
    then: Fed,
}

impl Model for MemoryInlet {
    ghost use Rattle.std.specs.Prelude.{List};
    ghost use Rattle.connections.specs.declared.pumping.Heard.{Heard};

    ghost Value = { List Heard };

    ghost view = { λ i. i.heard.items };
}

impl MemoryInlet {
    /// An inlet that answers so many pieces by `Go`, and those behind them by `then`.
    pub fn new(alloc: Global, goes: u64, then: Fed) -> MemoryInlet
        ensures { result ≡ [] }
    {
        MemoryInlet {
            alloc,
            heard: Vec::new(alloc),
            goes,
            then,
        }
    }

    /// All that it was given, in order.
    pub fn heard(&self) -> &[Heard]
        ensures { result.now ≡ self.now }
    {
        self.heard.as_slice()
    }

    fn answer(&mut self) -> Fed
        ensures { self.new ≡ self.old }
    {
        if self.goes == 0 {
            return self.then;
        }
        self.goes -= 1;
        Fed::Go
    }
}

impl Inlet for MemoryInlet {
    ghost told = { λ heard. Some heard };

    ghost took = { λ heard. length (bytes_heard heard) };

    fn piece<R: Clock + Wait>(&mut self, rt: &R, bytes: &[u8]) -> Fed {
        let fed = self.answer();
        let piece = copy_of(rt, self.alloc, bytes);
        make_room(rt, &mut self.heard);
        self.heard.push_reserved(Heard::Piece(piece, fed));
        fed
    }

    fn hang_up<R: Clock + Wait>(&mut self, rt: &R) {
        make_room(rt, &mut self.heard);
        self.heard.push_reserved(Heard::HangUp);
    }
}
