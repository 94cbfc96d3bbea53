ghost use Rattle.std.specs.Prelude.{⊤};

use crate::visitor::Visitor;
use admin::Door;
use http_pieces::Text;
use mio::net::{TcpListener, TcpStream};
use mio::{Interest, Poll, Token};
use std::alloc::{AllocError, Global};
use std::io::{self, ErrorKind};
use std::marker::Model;

/// So many visitors are served at once at an entrance; beyond that one who has not asked yet makes room.
pub(crate) const VISITORS: usize = 16;

/// A visitor has to go after so many milliseconds.
const VISIT: u64 = 2_000;

/// Each visitor takes so many milliseconds of the time in which further ones are let in: main has streams to accept.
const PACE: u64 = 10;

/// So many milliseconds of that may be taken ahead: by as many visitors as are served at once.
const AHEAD: u64 = 16 * PACE;

/// An accept that failed is tried again after so many milliseconds.
const PAUSE: u64 = 10;

/// An address at which operators ask, and those who came there.
#[derive(Drop)]
pub(crate) struct Entrance {
    alloc: Global,
    listener: TcpListener,
    // the address of `--admin`, as it was given; none at that of `--ready`
    operators: Option<Text>,
    // the token of its listener; those of its visitors follow
    first: usize,
    visitors: Vec<Option<Visitor>>,
    // the moment at which it is looked who else waits, if somebody may: a wait tells of each only once
    again: Option<u64>,
    // the time of visitors is taken up to that moment
    taken: u64,
}

// Clauses see nothing of it, which keeps proofs small.
impl Model for Entrance {
    ghost Value = { ⊤ };

    ghost view = { λ _. tt };
}

impl Entrance {
    /// One at which nobody stands, whose tokens begin with that one.
    pub(crate) fn new(
        alloc: Global,
        listener: TcpListener,
        operators: Option<Text>,
        first: usize,
    ) -> Result<Entrance, AllocError> {
        Ok(Entrance {
            alloc,
            visitors: places(alloc)?,
            listener,
            operators,
            first,
            again: None,
            taken: 0,
        })
    }

    /// Has its listener waited for.
    pub(crate) fn watch(&mut self, poll: &Poll) -> io::Result<()> {
        poll.registry()
            .register(&mut self.listener, Token(self.first), Interest::READABLE)
    }

    /// Whom it is for.
    pub(crate) fn door(&self) -> Door<'_> {
        match &self.operators {
            Some(given) => Door::Operators(given.as_str().as_bytes()),
            None => Door::Watchers,
        }
    }

    /// Somebody may wait at it, at that moment.
    pub(crate) fn knock(&mut self, moment: u64) {
        self.again = Some(self.again.unwrap_or(moment));
    }

    /// Whether the token is that of its listener.
    pub(crate) fn is_listener(&self, token: usize) -> bool {
        token == self.first
    }

    /// The place of the visitor whose token this is.
    pub(crate) fn place_of(&self, token: usize) -> Option<usize> {
        let place = token.checked_sub(self.first)?.checked_sub(1)?;
        (place < self.visitors.len()).then_some(place)
    }

    /// Takes the visitor out of its place.
    pub(crate) fn take(&mut self, place: usize) -> Option<Visitor> {
        self.visitors.get_mut(place)?.take()
    }

    /// Puts the visitor back into its place.
    pub(crate) fn put_back(&mut self, place: usize, visitor: Visitor) {
        if let Some(free) = self.visitors.get_mut(place) {
            *free = Some(visitor);
        }
    }

    /// Lets in who waits, if it is time for that, and lets go of those whose time is over.
    pub(crate) fn attend(&mut self, poll: &Poll, moment: u64) {
        if self.again.is_some_and(|again| again <= moment) {
            self.let_in(poll, moment);
        }
        self.expire(moment);
    }

    /// The moment at which it has to be attended to though nothing comes.
    pub(crate) fn next(&self) -> Option<u64> {
        let until = self.visitors.iter().flatten().map(|visitor| visitor.until);
        until.chain(self.again).min()
    }

    /// Accepts who waits, as many as the pace lets. Where somebody may be left, it is looked again.
    fn let_in(&mut self, poll: &Poll, moment: u64) {
        for _visitor in 0..VISITORS {
            if self.taken > moment.saturating_add(AHEAD).saturating_sub(PACE) {
                break;
            }
            match self.listener.accept() {
                Ok((stream, _peer)) => {
                    self.taken = self.taken.max(moment).saturating_add(PACE);
                    self.seat(poll, stream, moment);
                }
                Err(error) if error.kind() == ErrorKind::WouldBlock => {
                    self.again = None;
                    return;
                }
                Err(_) => {
                    self.again = Some(moment.saturating_add(PAUSE));
                    return;
                }
            }
        }
        self.again = Some(moment.saturating_add(PACE));
    }

    /// Gives the stream a place. Where there is none it is closed.
    fn seat(&mut self, poll: &Poll, stream: TcpStream, moment: u64) {
        let Some(place) = self.place() else {
            return;
        };
        // who stood there goes before another is watched by the same token
        drop(self.take(place));
        let mut visitor = Visitor::new(self.alloc, stream, moment, moment.saturating_add(VISIT));
        let token = Token(self.first.saturating_add(1).saturating_add(place));
        let interests = Interest::READABLE | Interest::WRITABLE;
        let registered = poll.registry().register(visitor.stream(), token, interests);
        if registered.is_ok() {
            self.put_back(place, visitor);
        }
    }

    /// A free place; else that of the visitor who is silent longest and has not asked yet.
    fn place(&self) -> Option<usize> {
        let free = self.visitors.iter().position(|visitor| visitor.is_none());
        free.or_else(|| self.place_of_silent())
    }

    fn place_of_silent(&self) -> Option<usize> {
        let mut found = None;
        let mut least = u64::MAX;
        for (place, visitor) in self.visitors.iter().enumerate() {
            let Some(heard) = visitor.as_ref().and_then(Visitor::silent_since) else {
                continue;
            };
            if heard < least {
                found = Some(place);
                least = heard;
            }
        }
        found
    }

    /// Lets go of visitors whose time is over.
    fn expire(&mut self, moment: u64) {
        for place in self.visitors.iter_mut() {
            if matches!(place, Some(visitor) if visitor.until <= moment) {
                *place = None;
            }
        }
    }
}

/// Places for visitors, all of them free.
fn places(alloc: Global) -> Result<Vec<Option<Visitor>>, AllocError> {
    let mut visitors = Vec::with_capacity(alloc, VISITORS)?;
    for _visitor in 0..VISITORS {
        visitors.push(None)?;
    }
    Ok(visitors)
}
