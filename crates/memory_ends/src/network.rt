use crate::stream::{MemoryEnd, MemoryStream, memory_stream};
use branch_causes::Cause;
use gateway_core::{CallId, ConnId, Job, ReplyEntry, RequestLabel};
use gateway_loop::{BranchEnd, NamesAsked, Network};
use http_server::Log;
use std::alloc::{AllocError, Global};
use std::collections::VecDeque;
use std::net::SocketAddr;
use wires::Told;

/// A network over memory: it hands out the streams that it was given, tells the moment that it was told, and keeps what
/// it was asked for.
#[derive(Drop)]
pub struct ScriptedNetwork {
    alloc: Global,
    moment: u64,
    later: VecDeque<u64>,
    moments: Log<u64, u64>,
    made: Log<SocketAddr, ()>,
    closed: Log<Told<MemoryStream>, ()>,
    asked: NamesAsked,
    closings: u64,
    backends: VecDeque<MemoryStream>,
    connected: Vec<SocketAddr>,
    watched: Vec<(usize, bool)>,
    looked_up: Vec<String>,
    told: Vec<CallId>,
    labels: Option<Vec<(Option<String>, Option<String>)>>,
    broken: Vec<ConnId>,
    ended: Vec<(u32, Cause)>,
    unasked: Vec<(CallId, u32, bool)>,
    unserved: u64,
    watches: u64,
    watch_failing: Option<u64>,
    finds_names: bool,
}

impl ScriptedNetwork {
    /// A network with no backends, at moment 0.
    pub fn new(alloc: Global) -> ScriptedNetwork {
        ScriptedNetwork {
            alloc,
            moment: 0,
            later: VecDeque::new(alloc),
            moments: Log::new(),
            made: Log::new(),
            closed: Log::new(),
            asked: NamesAsked::new(),
            closings: 0,
            backends: VecDeque::new(alloc),
            connected: Vec::new(alloc),
            watched: Vec::new(alloc),
            looked_up: Vec::new(alloc),
            told: Vec::new(alloc),
            labels: None,
            broken: Vec::new(alloc),
            ended: Vec::new(alloc),
            unasked: Vec::new(alloc),
            unserved: 0,
            watches: 0,
            watch_failing: None,
            finds_names: true,
        }
    }

    /// It is this moment, in milliseconds, from now on.
    pub fn set_moment(&mut self, moment: u64) {
        self.moment = moment;
    }

    /// It is that later moment once it was asked for the time once more.
    pub fn add_moment(&mut self, later: u64) -> Result<(), AllocError> {
        self.later.push_back(later)?;
        Ok(())
    }

    /// One more connection can be made: its other end.
    pub fn add_backend(&mut self) -> Result<MemoryEnd, AllocError> {
        let (stream, end) = memory_stream(self.alloc)?;
        self.backends.push_back(stream)?;
        Ok(end)
    }

    /// The next connection that is not yet told of is refused.
    pub fn add_refusal(&mut self) -> Result<(), AllocError> {
        self.backends.push_back(MemoryStream::refused())?;
        Ok(())
    }

    /// How many streams were closed without a byte.
    pub fn unserved(&self) -> u64 {
        self.unserved
    }

    /// How many watches were asked for.
    pub fn watches(&self) -> u64 {
        self.watches
    }

    /// The watch of that number, from 0, fails.
    pub fn fail_watch(&mut self, number: u64) {
        self.watch_failing = Some(number);
    }

    /// No name can be looked up from now on.
    pub fn fail_look_ups(&mut self) {
        self.finds_names = false;
    }

    /// The addresses that were connected to, in order.
    pub fn connected(&self) -> &[SocketAddr] {
        self.connected.as_slice()
    }

    /// The tokens that were watched, in order, and whether for writing too.
    pub fn watched(&self) -> &[(usize, bool)] {
        self.watched.as_slice()
    }

    /// The names that were looked up, in order.
    pub fn looked_up(&self) -> &[String] {
        self.looked_up.as_slice()
    }

    /// The branches that were asked for, by their numbers, and what ended each, in order.
    pub fn ended(&self) -> &[(u32, Cause)] {
        self.ended.as_slice()
    }

    /// The branches that were told not to be asked, by their calls and their numbers, in order; and whether the reply to
    /// that call was told before.
    pub fn unasked(&self) -> &[(CallId, u32, bool)] {
        self.unasked.as_slice()
    }

    /// The requests whose replies were written whole, in order.
    pub fn told(&self) -> &[CallId] {
        self.told.as_slice()
    }

    /// Keeps what a log tells of each request whose reply is written from now on.
    pub fn keep_labels(&mut self) {
        self.labels = Some(Vec::new(self.alloc));
    }

    /// For each of those, in order, its target and its id.
    pub fn labels(&self) -> &[(Option<String>, Option<String>)] {
        match &self.labels {
            Some(labels) => labels.as_slice(),
            None => &[],
        }
    }

    /// How many streams were closed, of clients and of backends.
    pub fn closings(&self) -> u64 {
        self.closings
    }

    /// The connections that were told to have broken, in order.
    pub fn broken(&self) -> &[ConnId] {
        self.broken.as_slice()
    }
}

/// A copy of the text, if there is one and memory for it.
fn copied(alloc: Global, text: Option<&str>) -> Option<String> {
    String::from_str(alloc, text?).ok()
}

impl Network<Told<MemoryStream>> for ScriptedNetwork {
    ghost use Rattle.loop_model.specs.Accounts.{network_value};

    ghost value = { λ n. network_value n.moments.items n.made.items n.closed.items n.asked.items };

    fn moment(&mut self) -> u64 {
        let moment = self.moment;
        self.moments = self.moments.and(&moment, &moment);
        if let Some(later) = self.later.pop_front() {
            self.moment = later;
        }
        moment
    }

    fn connect(&mut self, address: SocketAddr, _length: usize) -> Told<MemoryStream> {
        self.made = self.made.and(&address, &());
        let _ = self.connected.push(address);
        match self.backends.pop_front() {
            Some(stream) => Told::new(stream, Some(address)),
            None => Told::new(MemoryStream::refused(), Some(address)),
        }
    }

    fn close(&mut self, wire: Told<MemoryStream>) {
        self.closed = self.closed.and(&wire, &());
        self.closings = self.closings.saturating_add(1);
        drop(wire);
    }

    fn watch(&mut self, wire: &mut Told<MemoryStream>, token: usize, writes: bool) -> bool {
        let number = self.watches;
        self.watches = number.saturating_add(1);
        let fails = self.watch_failing == Some(number);
        if fails || self.watched.push((token, writes)).is_err() {
            return false;
        }
        wire.note_watched(token, writes);
        true
    }

    fn look_up(&mut self, name: &str) -> bool {
        if !self.finds_names {
            return false;
        }
        let Ok(copy) = String::from_str(self.alloc, name) else {
            return false;
        };
        if self.looked_up.push(copy).is_err() {
            return false;
        }
        self.asked = self.asked.and(name);
        true
    }

    fn tell_reply(
        &mut self,
        _client: &Told<MemoryStream>,
        id: CallId,
        _entry: &ReplyEntry,
        label: &RequestLabel,
    ) {
        let _ = self.told.push(id);
        if let Some(labels) = &mut self.labels {
            let target = copied(self.alloc, label.target());
            let _ = labels.push((target, copied(self.alloc, label.id())));
        }
    }

    fn tell_broken(&mut self, _client: &Told<MemoryStream>, conn: ConnId) {
        let _ = self.broken.push(conn);
    }

    fn tell_unserved(&mut self) {
        self.unserved = self.unserved.saturating_add(1);
    }

    fn tell_unasked(&mut self, job: &Job) {
        let id = job.call();
        let _ = self.unasked.push((id, job.branch(), self.told.iter().any(|told| *told == id)));
    }

    fn tell_branch(&mut self, end: &BranchEnd) {
        let _ = self.ended.push((end.job.branch(), end.cause));
    }
}
