ghost use Rattle.std.specs.Prelude.{⊤};

use crate::host::{NetHost, SinceStart};
use crate::loop_side::{LoopSide, Mail, PAUSE};
use crate::name_table::{Asked, NameTable};
use crossbeam_channel::{Receiver, Sender, unbounded};
use gateway_loop::LookedUp;
use std::alloc::{AllocError, Global};
use std::marker::Model;
use std::net::{Net, SocketAddr, ToSocketAddrs};
use std::sync::{Arc, Mutex, Wait};
use std::thread;
use std::time::{Clock, Duration};

/// So many threads look names up at most: one for each name that the plans have, since a look-up that hangs keeps its
/// thread for as long as it does.
pub(crate) const MOST_LOOKERS: usize = 64;

/// Has names looked up for all loops, by threads of its own, since the system offers no look-up that does not wait. Who
/// asks for a name that is being looked up waits with those who do already.
///
/// The threads end with this, and are never joined: a look-up takes as long as the system's servers of names let it, and
/// the program's end waits for none. A thread that still runs when `main` returns is cut off by the system, and what it
/// holds is its own.
#[derive(Drop)]
pub(crate) struct Resolver {
    alloc: Global,
    clock: SinceStart,
    asked: Sender<String>,
    desk: Arc<Mutex<Desk>>,
}

/// What the loops and those who look names up share.
#[derive(Drop)]
struct Desk {
    table: NameTable<Arc<LoopSide>>,
}

// Clauses see nothing of it, which keeps proofs small.
impl Model for Desk {
    ghost Value = { ⊤ };

    ghost view = { λ _. tt };
}

// Clauses see nothing of it, which keeps proofs small.
impl Model for Resolver {
    ghost Value = { ⊤ };

    ghost view = { λ _. tt };
}

impl Resolver {
    /// With a thread for each of so many names, up to a limit.
    pub(crate) fn new<M: NetHost>(
        rt: M,
        alloc: Global,
        clock: SinceStart,
        names: usize,
    ) -> Result<Resolver, AllocError> {
        let (asked, taken) = unbounded(alloc)?;
        let desk = Desk {
            table: NameTable::new(alloc),
        };
        let desk = Arc::new(alloc, Mutex::new(desk))?;
        for _looker in 0..names.min(MOST_LOOKERS) {
            let looker = Looker {
                rt,
                alloc,
                clock,
                names: taken.clone()?,
                desk: Arc::try_clone(&desk)?,
            };
            drop(thread::spawn(&rt, move || looker.run())?);
        }
        Ok(Resolver {
            alloc,
            clock,
            asked,
            desk,
        })
    }

    /// The loop of this side asks for the addresses of a name: they are handed in to it later. None where there is no
    /// memory for that.
    pub(crate) fn ask<R: Wait + Clock>(
        &self,
        rt: &R,
        name: &str,
        side: &Arc<LoopSide>,
    ) -> Option<()> {
        let owned = String::from_str(self.alloc, name).ok()?;
        let waiter = Arc::try_clone(side).ok()?;
        let mut clock = self.clock;
        let moment = clock.now(rt);
        let mut desk = self.desk.lock(rt);
        match desk.table.ask(name, waiter, moment).ok()? {
            Asked::First => {
                if self.asked.send(rt, owned).is_err() {
                    let _asked = desk.table.end(name, true, moment);
                    return None;
                }
                Some(())
            }
            Asked::Joined => Some(()),
            Asked::Missed(waiter) => {
                drop(desk);
                let addresses = Vec::new(self.alloc);
                let missed = LookedUp {
                    name: owned,
                    addresses,
                };
                waiter.hand_in(rt, Mail::Found(missed)).ok()
            }
        }
    }
}

/// Who looks names up, one after the other.
#[derive(Drop)]
struct Looker<M> {
    rt: M,
    alloc: Global,
    clock: SinceStart,
    names: Receiver<String>,
    desk: Arc<Mutex<Desk>>,
}

// Clauses see nothing of it, which keeps proofs small.
impl<M> Model for Looker<M> {
    ghost Value = { ⊤ };

    ghost view = { λ _. tt };
}

impl<M: NetHost> Looker<M> {
    /// Until nobody can ask for names any more.
    fn run(mut self) {
        let rt = self.rt;
        for _ in rt.forever() {
            let Ok(name) = self.names.recv(&rt) else {
                return;
            };
            self.look_up(name.as_str());
        }
        unreachable!()
    }

    /// Looks a name up, and tells all who wait for it.
    fn look_up(&mut self, name: &str) {
        let addresses = look_up(&self.rt, self.alloc, name);
        for side in self.end(name, !addresses.is_empty()) {
            self.tell(&side, name, addresses.as_slice());
        }
    }

    /// The name was looked up: who waits for it.
    fn end(&mut self, name: &str, is_found: bool) -> Vec<Arc<LoopSide>> {
        let moment = self.clock.now(&self.rt);
        let mut desk = self.desk.lock(&self.rt);
        desk.table.end(name, is_found, moment)
    }

    /// Hands in what was found as soon as there is memory for that: a loop waits for it.
    fn tell(&self, side: &LoopSide, name: &str, addresses: &[SocketAddr]) {
        for _ in self.rt.forever() {
            let found = looked_up(self.alloc, name, addresses);
            let is_told = found.is_ok_and(|found| side
                .hand_in(&self.rt, Mail::Found(found))
                .is_ok());
            if is_told || side.is_over() {
                return;
            }
            thread::sleep(&self.rt, Duration::from_millis(PAUSE));
        }
        unreachable!()
    }
}

/// A name with these addresses.
fn looked_up(alloc: Global, name: &str, addresses: &[SocketAddr]) -> Result<LookedUp, AllocError> {
    Ok(LookedUp {
        name: String::from_str(alloc, name)?,
        addresses: Vec::from_slice(alloc, addresses)?,
    })
}

/// The addresses of a name in the system's order: none where there is no such name, and where there is no memory.
fn look_up<R: Net>(rt: &R, alloc: Global, name: &str) -> Vec<SocketAddr> {
    let mut addresses = Vec::new(alloc);
    if let Ok(found) = name.to_socket_addrs(rt) {
        for address in found {
            if addresses.push(address).is_err() {
                break;
            }
        }
    }
    addresses
}
