ghost use Rattle.std.specs.Prelude.{◌≡◌, ◌<◌, ℕ, List, Some, is_some, true};
ghost use Rattle.gateway_model.specs.declared.event.Event.{Event};
ghost use Rattle.gateway_model.specs.Events.{is_closing_of, most_open, open_connections};
ghost use Rattle.gateway_theory.specs.Served.{Served};
ghost use Rattle.gateway_theory.specs.Serving.{KeepsBut};
ghost use Rattle.gateway_model.specs.Events.{is_opening};
ghost use Rattle.gateway_model.specs.History.{History};
ghost use Rattle.gateway_run.specs.Stepping.{AddsStep, Tells, after_step, done_of, opening_of, seen_in, taken_of};

use gateway_core::{CallId, ConnId, Core, OpenError, ReplyHook, StepFault, Stock, Took, deliver};
use gateway_model::Event;

/// What one event came to.
#[derive(Drop)]
pub enum Stepped<H> {
    /// The event was taken.
    Done,
    /// A connection was opened.
    Opened(ConnId),
    /// None was, and its hooks come back.
    NotOpened(Stock<H>, OpenError),
    /// A branch's result was seen so.
    Saw(Took),
    /// The step was not made, or not made whole.
    Fault(StepFault),
    /// The event was taken, and a connection broke in the step.
    Broke,
}

/// Makes the step of one event. An opening takes the hooks of its connection's calls.
pub fn step<H: ReplyHook + Drop>(
    core: &mut Core<H>,
    event: Event,
    stock: Option<Stock<H>>,
) -> Stepped<H>
    requires { is_some stock ≡ is_opening event }
    ensures stands { (h : History) → Served core.old h → Served core.new (after_step result event h) }
    ensures adds { AddsStep result event core.old core.new }
    ensures tells { Tells event result core.old core.new }
    ensures opens { (conn : ℕ) → result ≡ Stepped.Opened conn → event ≡ Event.Opening }
    ensures few { (conn : ℕ) (h : History) → result ≡ Stepped.Opened conn → Served core.old h
        → open_connections h.opened h.events < most_open }
    ensures back { (hooks : List H) (error : _) → result ≡ Stepped.NotOpened hooks error → stock ≡ Some hooks }
    ensures keeps { KeepsBut (λ c. is_closing_of c event) (λ c. true) (seen_in result) core.old core.new }
{
    match event {
        Event::Opening => match stock {
            Some(stock) => opened(core.open_conn(stock)),
            None => unreachable!(),
        },
        Event::Piece(conn, bytes) => done(deliver(core, ConnId::of(conn), bytes.as_slice())),
        Event::HangUp(conn) => done(core.hang_up(ConnId::of(conn))),
        Event::Moment(moment) => taken(core.moment(moment)),
        Event::BranchResult(conn, request, branch, outcome) => {
            let call = CallId {
                conn: ConnId::of(conn),
                request,
            };
            Stepped::Saw(core.result(&call, branch, outcome))
        }
        Event::Drain => taken(core.drain()),
        Event::Closing(conn) => {
            core.close(ConnId::of(conn));
            Stepped::Done
        }
    }
}

/// What an opening came to.
fn opened<H: Drop>(answer: Result<ConnId, (Stock<H>, OpenError)>) -> Stepped<H>
    ensures { result ≡ opening_of answer }
{
    match answer {
        Ok(conn) => Stepped::Opened(conn),
        Err(refused) => Stepped::NotOpened(refused.0, refused.1),
    }
}

/// What a step of one connection came to.
fn done<H: Drop>(answer: Result<(), StepFault>) -> Stepped<H>
    ensures { result ≡ done_of answer }
{
    match answer {
        Ok(()) => Stepped::Done,
        Err(fault) => Stepped::Fault(fault),
    }
}

/// What a step of all connections came to, in which one broke or none did.
fn taken<H: Drop>(broke: bool) -> Stepped<H>
    ensures { result ≡ taken_of broke }
{
    if broke { Stepped::Broke } else { Stepped::Done }
}
