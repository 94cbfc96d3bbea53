ghost use Rattle.std.specs.Prelude.{◌≡◌, [], None, Some, IfSome, IsFalse, false, is_some, option_map};
ghost use Rattle.loop_model.specs.Asking.{IsUntouched};
ghost use Rattle.loop_model.specs.Streams.{IsNew};
ghost use Rattle.branch_asking.specs.Asking.{Asks, HasGrown, HasLookedAt, IsStill, IsUntouchedAttempt, Reuses, Steps, attempt_value, got_by, noted_attempt, own_end, until_of};
ghost use Rattle.branch_asking.specs.Rests.{rests_over};

use crate::backend::Backend;
use crate::network::Network;
use branch_causes::is_timeout;
use branch_exchange::{Exchange, ExchangeEnd, Loss};
use http_pieces::{Bytes, Framing};
use std::alloc::Global;
use std::io::ErrorKind;
use std::marker::Model;
use std::mem;
use wires::{Got, PIECE, Ready, Sent, Wire};

/// So often its stream is read in a turn at most, and written.
const MOST_STEPS: u32 = 4;

/// An exchange, and the stream that it goes over.
#[derive(Drop)]
pub struct Attempt<W: Wire> {
    exchange: Exchange,
    // none while its address is not known
    stream: Option<Backend<W>>,
    // whether its stream took a byte
    is_connected: bool,
    // until when it has to take one, where another address follows
    until: Option<u64>,
}

impl<W: Wire> Model for Attempt<W> {
    ghost use Rattle.std.specs.Prelude.{◌≡◌, false};
    ghost use Rattle.branch_asking.specs.Asking.{AttemptValue, IsUntouchedAttempt, attempt_value};

    ghost Value = { AttemptValue };

    ghost view = { λ a. attempt_value a.exchange a.stream a.is_connected a.until };

    ghost invariant = { λ a. a.is_connected ≡ false
        → IsUntouchedAttempt (attempt_value a.exchange a.stream a.is_connected a.until) };
}

/// What a step of an exchange came to.
#[derive(Drop)]
pub(crate) enum Step {
    /// It would have to wait.
    Waits,
    /// There may be more to do.
    More,
    /// Its address accepts no connection: nothing was written.
    Refused(ErrorKind),
    /// It is over.
    Ended(ExchangeEnd),
}

impl<W: Wire> Attempt<W> {
    /// Before anything was done for this request, whose reply may be framed so.
    pub(crate) fn new(alloc: Global, framing: Framing, request: Bytes) -> Attempt<W>
        ensures asks { Asks framing request result }
        ensures untouched { IsUntouchedAttempt result }
        ensures alone { result.stream ≡ None }
    {
        Attempt {
            exchange: Exchange::new(alloc, framing, request),
            stream: None,
            is_connected: false,
            until: None,
        }
    }

    /// Watches its stream by that token, unless it is watched so. False where it has none, or can't.
    pub(crate) fn watch<N: Network<W>>(&mut self, net: &mut N, token: usize) -> bool
        ensures same { self.new ≡ record self.old { watched = self.new.watched } }
        ensures net { N.value net.new ≡ N.value net.old }
    {
        let writes = !self.exchange.is_sent();
        match &mut self.stream {
            Some(stream) if stream.is_watched_by(token, writes) => true,
            Some(stream) => stream.watch(net, token, writes),
            None => false,
        }
    }

    /// Something became possible at its stream.
    pub(crate) fn report(&mut self, ready: Ready)
        ensures { self.new ≡ noted_attempt ready self.old }
    {
        if let Some(stream) = &mut self.stream {
            stream.report(ready);
        }
    }

    /// Whether it has a stream.
    pub(crate) fn has_stream(&self) -> bool
        ensures { result ≡ is_some self.now.stream }
    {
        self.stream.is_some()
    }

    /// Whether its stream took a byte.
    pub fn is_connected(&self) -> bool
        ensures is { result ≡ self.now.connected }
        ensures untouched { IsFalse result → IsUntouchedAttempt self.now }
    {
        self.is_connected
    }

    /// Whether its stream has not taken a byte yet.
    pub fn is_connecting(&self) -> bool {
        self.stream.is_some() && !self.is_connected
    }

    /// Until when its stream has to take a byte, where another address follows. None once it took one.
    pub(crate) fn until(&self) -> Option<u64>
        ensures { result ≡ until_of self.now }
    {
        if self.is_connected { None } else { self.until }
    }

    /// Its stream has to take a byte until then, where another address follows.
    pub(crate) fn set_until(&mut self, until: Option<u64>)
        ensures { self.new ≡ record self.old { until = until } }
    {
        self.until = until;
    }

    /// Nothing was written while its stream has not taken a byte. It does nothing.
    pub(crate) fn unsent_law(&self)
        ensures untouched { self.now.connected ≡ false → got_by self.now.stream ≡ [] }
    {
        let _ = &self.stream;
    }

    /// Whether its reply is whole, and nothing was read behind it.
    pub(crate) fn is_alone(&self) -> bool
        ensures { result ≡ self.now.exchange.alone }
    {
        self.exchange.is_alone()
    }

    /// By what token its stream is watched, and whether for room to write too.
    pub(crate) fn watched(&self) -> Option<(usize, bool)>
        ensures { result ≡ self.now.watched }
    {
        self.stream.as_ref()?.watched()
    }

    /// Whether nothing is left to be done over its stream, which is watched: nothing may be read, or it has not taken a
    /// byte; and where some of the request is left it is watched for room to write, and takes no more.
    pub(crate) fn rests(&self) -> bool
        ensures { result ≡ rests_over self.now }
    {
        let Some(stream) = &self.stream else {
            return true;
        };
        let Some((_token, for_writes)) = stream.watched() else {
            return false;
        };
        (!stream.may_read() || !self.is_connected)
            && (self.exchange.is_sent() || (for_writes && !stream.may_write()))
    }

    /// How many bytes of its request are left to be written.
    pub(crate) fn left(&self) -> usize {
        self.exchange.request().waiting().len()
    }

    /// Writes what can be written of the request, and reads what can be read of the reply.
    pub(crate) fn step(&mut self) -> Step
        ensures steps { Steps self.old result self.new }
        ensures grows { HasGrown self.old self.new }
    {
        for _step in 0..MOST_STEPS {
            match self.step_once() {
                Step::More => {}
                step => return step,
            }
        }
        Step::More
    }

    /// Writes once while some of the request is left. Reads once where it was written whole, and where its stream takes
    /// no more for now: a backend may answer, or end its stream, without reading on.
    fn step_once(&mut self) -> Step
        ensures steps { Steps self.old result self.new }
        ensures grows { HasGrown self.old self.new }
    {
        if !self.exchange.is_sent() && (self.may_write() || !self.is_connected) {
            return self.send();
        }
        if !self.may_read() {
            return Step::Waits;
        }
        self.receive()
    }

    /// Whether its stream may take a write.
    fn may_write(&self) -> bool {
        self.stream.as_ref().is_some_and(Backend::may_write)
    }

    /// Whether a read of its stream may bring something.
    fn may_read(&self) -> bool {
        self.stream.as_ref().is_some_and(Backend::may_read)
    }

    /// Writes once of what is left of the request.
    fn send(&mut self) -> Step
        ensures steps { Steps self.old result self.new }
        ensures grows { HasGrown self.old self.new }
    {
        let Some(stream) = &mut self.stream else {
            return Step::Waits;
        };
        if !stream.may_write() {
            return Step::Waits;
        }
        match stream.write(self.exchange.request()) {
            Sent::Bytes(count) => {
                self.exchange.sent(count);
                self.is_connected = true;
                Step::More
            }
            Sent::Nothing | Sent::Interrupted => Step::More,
            Sent::Failed(kind) if self.is_connected => {
                Step::Ended(ExchangeEnd::Lost(Loss::Write(kind)))
            }
            Sent::Failed(kind) => Step::Refused(kind),
        }
    }

    /// Reads once of the reply.
    // made apart from its use: in one function its piece was cleared in each step, read or not
    #[inline(never)]
    fn receive(&mut self) -> Step
        ensures steps { Steps self.old result self.new }
        ensures grows { HasGrown self.old self.new }
    {
        let Some(stream) = &mut self.stream else {
            return Step::Waits;
        };
        let is_used = stream.is_used();
        let mut piece = [0u8; PIECE];
        match stream.read(&mut piece) {
            Got::Bytes(count) => {
                self.is_connected = true;
                match self.exchange.received(&piece[..count]) {
                    Some(end) => Step::Ended(own_end(is_used, end)),
                    None => Step::More,
                }
            }
            Got::Nothing => Step::Waits,
            Got::Interrupted => Step::More,
            Got::End(Some(kind)) => Step::Ended(ExchangeEnd::Lost(Loss::Read(kind))),
            Got::End(None) => Step::Ended(ExchangeEnd::Lost(self.exchange.loss_at_end())),
        }
    }
}

impl<W: Wire + Drop> Attempt<W> {
    /// Its stream, once its address is known.
    pub(crate) fn into_stream(self) -> Option<Backend<W>>
        ensures { option_map (λ b. b.stream) result ≡ self.stream }
    {
        self.stream
    }

    /// It goes over this new stream from now on, of which nothing was read or written. Answers the one before, if there
    /// was one.
    pub(crate) fn connect(&mut self, stream: Backend<W>) -> Option<Backend<W>>
        requires untouched { IsUntouched stream.stream }
        requires new { IsNew stream.stream }
        ensures fresh { self.new ≡ attempt_value self.old.exchange (Some stream) false None }
        ensures before { option_map (λ b. b.stream) result ≡ self.old.stream }
        ensures untouched { result ≡ None → IsUntouchedAttempt self.old }
    {
        self.is_connected = false;
        self.until = None;
        mem::replace(&mut self.stream, Some(stream))
    }

    /// It goes over this stream from now on, over which jobs went before, if it has none yet: if a read of that finds
    /// nothing there, and it takes some of the request at once. Else the stream is given back.
    pub(crate) fn reuse(&mut self, stream: Backend<W>) -> Option<Backend<W>>
        requires still { IsStill stream.stream }
        ensures kept { result ≡ None → Reuses stream.stream self.old self.new }
        ensures back { IfSome result (λ back. (self.new ≡ self.old) × HasLookedAt stream.stream back.stream) }
    {
        if self.stream.is_some() {
            return Some(stream);
        }
        let mut stream = stream;
        if !stream.is_quiet() {
            return Some(stream);
        }
        match stream.write(self.exchange.request()) {
            Sent::Bytes(first) => {
                self.exchange.sent(first);
                self.is_connected = true;
                self.stream = Some(stream);
                None
            }
            Sent::Nothing | Sent::Interrupted | Sent::Failed(_) => Some(stream),
        }
    }
}

/// What an exchange came to, over a stream that jobs went over before, or not. There a reply that says that no request
/// came in time may have been on its way before this one: it is lost.
fn own_end(is_used: bool, end: ExchangeEnd) -> ExchangeEnd
    ensures { result ≡ own_end is_used end }
{
    if is_used && is_timeout(&end) {
        ExchangeEnd::Lost(Loss::Early)
    } else {
        end
    }
}
