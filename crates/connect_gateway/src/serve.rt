ghost use Rattle.call_plan.specs.PlanFile.{plans_in};
ghost use Rattle.connect_gateway.specs.Looping.{AreOfFile, ServeFile};
ghost use Rattle.std.specs.Prelude.{◌≡◌, ℕ, IfOk, List};

use crate::admin_door::AdminDoor;
use crate::dealer::Dealer;
use crate::host::{Host, NetHost, SinceStart};
use crate::log_writer::LogWriter;
use crate::loop_log::LogLines;
use crate::looping::{Common, Looping};
use crate::resolver::{MOST_LOOKERS, Resolver};
use crate::start_log::StartLog;
use crate::waiting::MOST_WAITING;
use admin::{Drain, ServedNames};
use call_plan::Plans;
use command_line::{Log, Service};
use crossbeam_channel::{Receiver, unbounded};
use http_pieces::{Framing, Text};
use input_files::PlanFile;
use libc::types::rlimit;
use libc::{RLIMIT_NOFILE, getrlimit};
use mio::net;
use script_replay::Fault;
use std::alloc::{AllocError, Global};
use std::fs::{File, Files};
use std::io::{self, ErrorKind};
use std::net::{Net, ToSocketAddrs};
use std::sync::Arc;
use std::thread::{self, JoinHandle};
use std::time::{Duration, Instant};

/// A second, in milliseconds.
const SECOND: u64 = 1_000;

/// A worker needs so many descriptors at most: for its connections, for streams that linger, for backends that are
/// asked and for those that are to close first, and for itself.
const DESCRIPTORS: u64 = 1_224;

/// So many more are enough for the program: for streams that wait for a place, for names that are looked up, four each,
/// and for itself.
const FURTHER_DESCRIPTORS: u64 = 560;

const _: () = prove!(FURTHER_DESCRIPTORS == MOST_WAITING as u64 + 4 * MOST_LOOKERS as u64 + 48);

/// So long the program's end waits for the lines of the log that are left, in milliseconds.
const LAST_LINES: u64 = 1_000;

/// Serves the plans of a file to whoever connects, until so many streams were accepted, if that was asked for, and all
/// of them have ended, or until it is drained. `Plans` for a plan file that is refused; `Io` where it can't be read, at
/// an address that can't be listened at, where sockets can't be waited for, and after a failed accept; `Memory` where
/// the loops or their threads can't be made.
pub(crate) fn serve<M: NetHost + AllocGlobal + Files>(
    rt: M,
    service: &Service,
) -> Result<(), Fault> {
    // if the program was started without standard streams, no socket takes their numbers: lines of the log stay out of
    // it
    let _input = hold(&rt);
    let _output = hold(&rt);
    let _error = hold(&rt);
    let alloc = rt.alloc();
    let log = StartLog::new(rt, alloc, service.log != Log::Off);
    let file = read_plan_file(&rt, alloc, &log, service)?;
    let plans = ServedPlans::of(alloc, &file, service.workers)?;
    drop(file);
    warn_of_descriptors(alloc, &log, service.workers);
    serve_plans(rt, alloc, &log, service, plans)
}

fn serve_plans<M: NetHost>(
    rt: M,
    alloc: Global,
    log: &StartLog<M>,
    service: &Service,
    plans: ServedPlans,
) -> Result<(), Fault> {
    let clock = SinceStart::new(Instant::now(&rt)?);
    let (lines, writer) = LogWriter::new(alloc, service.log == Log::All)?;
    let dealer = dealer(rt, alloc, log, clock, service, &plans.names, &lines)?;
    let resolver = Resolver::new(rt, alloc, clock, plans.names_looked_up)?;
    let common = Common {
        rt,
        alloc,
        clock,
        resolver: Arc::new(alloc, resolver)?,
        lines: (service.log != Log::Off).then_some(lines),
        names: dealer.is_asked().then_some(plans.names),
        main: Arc::try_clone(&dealer.main)?,
        framing: framing_of(service),
        keep: service.keep.map(|seconds| seconds.saturating_mul(1_000)),
    };
    log.listens(service, plans.count);
    let most = service.connections.unwrap_or(u64::MAX);
    serve_with(common, dealer, plans.of_workers, most, writer)
}

/// How replies of backends may be framed.
fn framing_of(service: &Service) -> Framing {
    if service.chunked {
        Framing::Any
    } else {
        Framing::Fixed
    }
}

/// What a plan file gives to those who serve it.
#[derive(Drop)]
struct ServedPlans {
    // a copy for each worker
    of_workers: Vec<Plans>,
    names: Arc<ServedNames>,
    count: usize,
    // how many branches have names for addresses, which have to be looked up
    names_looked_up: usize,
}

impl ServedPlans {
    /// What this file gives to so many workers.
    fn of(alloc: Global, file: &PlanFile, workers: u32) -> Result<ServedPlans, Fault>
        ensures { IfOk result (λ served. AreOfFile file.now served.of_workers.items) }
    {
        let names_looked_up = file.names(alloc)?;
        let paths = file.paths(alloc)?;
        let count = paths.len();
        let plans = file.plans(alloc)?;
        let names = ServedNames::of(alloc, paths, &plans)?;
        let names = Arc::new(alloc, names)?;
        Ok(ServedPlans {
            of_workers: plans_of(alloc, file, workers)?,
            names,
            count,
            names_looked_up,
        })
    }
}

/// The plans of the file, for each of so many workers.
fn plans_of(alloc: Global, file: &PlanFile, workers: u32) -> Result<Vec<Plans>, Fault>
    ensures { IfOk result (λ plans. AreOfFile file.now plans.items) }
{
    let mut plans = Vec::new(alloc);
    for _worker in 0..workers {
        plans.push(file.plans(alloc)?)?;
    }
    Ok(plans)
}

/// Who accepts the streams of clients, whose address is listened at first, and attends to operators, if there is an
/// address for them.
fn dealer<M: NetHost>(
    rt: M,
    alloc: Global,
    log: &StartLog<M>,
    clock: SinceStart,
    service: &Service,
    names: &Arc<ServedNames>,
    lines: &LogLines,
) -> Result<Dealer<M>, Fault> {
    let listener = listen(&rt, log, service.listen.as_str())?;
    let door = open_door(&rt, alloc, log, service, names, lines)?;
    let told = (service.log != Log::Off).then(|| lines.try_clone());
    Dealer::new(rt, alloc, clock, listener, door, told.transpose()?)
}

/// Warns where fewer descriptors are allowed than so many workers may need (docs/OPERATING.md).
fn warn_of_descriptors<M: Host>(alloc: Global, log: &StartLog<M>, workers: u32) {
    let mut limit = rlimit {
        rlim_cur: 0,
        rlim_max: 0,
    };
    let is_told = getrlimit(RLIMIT_NOFILE, &mut limit) == 0;
    let allowed = limit.rlim_cur;
    let needed = u64::from(workers) * DESCRIPTORS + FURTHER_DESCRIPTORS;
    if is_told && allowed < needed {
        let text = format!(in alloc;
            "{allowed} are allowed, and {needed} are always enough: ulimit -n, or LimitNOFILE in a unit"
        );
        if let Ok(text) = text {
            log.warn("descriptors", text.as_str());
        }
    }
}

/// A descriptor that is open and of no use.
fn hold<R: Files>(rt: &R) -> io::Result<R::File> {
    File::open(rt, "/dev/null")
}

/// Reads the plan file, and tells what `check` says of it. `Plans` where it is refused.
fn read_plan_file<M: Host + Files>(
    rt: &M,
    alloc: Global,
    log: &StartLog<M>,
    service: &Service,
) -> Result<PlanFile, Fault> {
    let path = service.plans.as_str();
    let mut opened = File::open(rt, path).map_err(|error| log.failed(path, error))?;
    match PlanFile::read(alloc, &mut opened) {
        Ok(file) => {
            log.report(path, &file, own_addresses(alloc, service)?.as_slice());
            Ok(file)
        }
        Err(Fault::Plans) => Err(log.refused(path, "longer than 16777216 bytes", Fault::Plans)),
        Err(Fault::Io) => Err(log.refused(path, "it can't be read", Fault::Io)),
        Err(fault) => Err(fault),
    }
}

/// The addresses at which the gateway listens, as they were given.
fn own_addresses(alloc: Global, service: &Service) -> Result<Vec<&str>, AllocError> {
    let mut own = Vec::new(alloc);
    own.push(service.listen.as_str())?;
    if let Some(admin) = &service.admin {
        own.push(admin.address.as_str())?;
    }
    if let Some(ready) = &service.ready {
        own.push(ready.as_str())?;
    }
    Ok(own)
}

/// Listens at the first of the address' numbers at which it can.
fn listen<M: Host + Net>(
    rt: &M,
    log: &StartLog<M>,
    address: &str,
) -> Result<net::TcpListener, Fault> {
    let failed = |error| log.failed(address, error);
    let mut refused = io::Error::from(ErrorKind::AddrNotAvailable);
    for number in address.to_socket_addrs(rt).map_err(failed)? {
        match net::TcpListener::bind(rt, number) {
            Ok(listener) => return Ok(listener),
            Err(error) => refused = error,
        }
    }
    Err(failed(refused))
}

/// The door at the addresses for operators, if there are any.
fn open_door<M: Host + Net>(
    rt: &M,
    alloc: Global,
    log: &StartLog<M>,
    service: &Service,
    names: &Arc<ServedNames>,
    lines: &LogLines,
) -> Result<Option<AdminDoor>, Fault> {
    if service.admin.is_none() && service.ready.is_none() {
        return Ok(None);
    }
    let names = Arc::try_clone(names)?;
    let dropped = Arc::try_clone(&lines.dropped)?;
    let mut door = AdminDoor::new(
        alloc,
        drain_of(service),
        names,
        dropped,
        service.keep.is_some(),
    );
    if let Some(admin) = &service.admin {
        let listener = listen(rt, log, admin.address.as_str())?;
        let given = Text::from_str(alloc, admin.address.as_str())?;
        door.add(listener, Some(given))?;
    }
    if let Some(ready) = &service.ready {
        let listener = listen(rt, log, ready.as_str())?;
        door.add(listener, None)?;
    }
    Ok(Some(door))
}

/// How a drain goes that is asked for. Without `--admin` nobody can.
fn drain_of(service: &Service) -> Drain {
    match &service.admin {
        Some(admin) => Drain::new(
            admin.drain_after.saturating_mul(SECOND),
            admin.grace.saturating_mul(SECOND),
        ),
        None => Drain::new(0, 0),
    }
}

/// Serves so many streams by a loop for each of these plans, and ends all threads that it started.
fn serve_with<M: NetHost>(
    common: Common<M>,
    mut dealer: Dealer<M>,
    plans: Vec<Plans>,
    most: u64,
    mut writer: LogWriter,
) -> Result<(), Fault> {
    let rt = common.rt;
    let alloc = common.alloc;
    let has_log = common.lines.is_some();
    let loopings = loopings(&common, plans)?;
    for looping in &loopings {
        dealer.sides.push(Arc::try_clone(&looping.side)?)?;
        writer.add(&looping.side)?;
    }
    // the log ends with the last loop
    drop(common);
    serve_by(rt, alloc, dealer, loopings, most, has_log.then_some(writer))
}

/// Serves so many streams by these loops, and ends all threads that it started.
fn serve_by<M: NetHost>(
    rt: M,
    alloc: Global,
    mut dealer: Dealer<M>,
    loopings: Vec<Looping<M>>,
    most: u64,
    writer: Option<LogWriter>,
) -> Result<(), Fault> {
    let mut crew = Crew {
        loops: Vec::new(alloc),
        written: None,
    };
    let served = match crew.start(rt, alloc, loopings, writer) {
        Ok(()) => dealer.deal_streams(most),
        Err(_) => Err(Fault::Memory),
    };
    dealer.close();
    if served != Err(Fault::Memory) {
        dealer.attend_to_the_end();
    }
    drop(dealer);
    let are_gone = crew.end(&rt);
    match served {
        Ok(()) if !are_gone => Err(Fault::Io),
        served => served,
    }
}

/// A loop for each of these plans, from the last to the first.
fn loopings<M: NetHost>(common: &Common<M>, plans: Vec<Plans>) -> Result<Vec<Looping<M>>, Fault>
    ensures { (file : List ℕ) → AreOfFile file plans.items → IfOk result (λ loops. ServeFile file loops.items) }
{
    let mut plans = plans;
    let mut loopings = Vec::new(common.alloc);
    while let Some(last) = plans.pop() {
        let worker = u32::try_from(loopings.len()).unwrap_or(u32::MAX);
        loopings.push(Looping::new(common, worker, last)?)?;
    }
    Ok(loopings)
}

/// The threads beside main, but for those that look up names: they are left to the program's end.
#[derive(Drop)]
struct Crew {
    // each answers whether all clients of its loop have gone
    loops: Vec<JoinHandle<bool>>,
    // the other end of this goes once all lines of the log are written
    written: Option<Receiver<()>>,
}

impl Crew {
    /// Starts a thread that writes the log, if there is one, and one for each loop. Those that started are in the
    /// crew, also where it fails.
    fn start<M: NetHost>(
        &mut self,
        rt: M,
        alloc: Global,
        loopings: Vec<Looping<M>>,
        writer: Option<LogWriter>,
    ) -> Result<(), AllocError> {
        if let Some(writer) = writer {
            let (done, written) = unbounded(alloc)?;
            drop(thread::spawn(&rt, move || writer.run(&rt, done))?);
            self.written = Some(written);
        }
        self.loops.reserve(loopings.len())?;
        for looping in loopings {
            let thread = thread::spawn(&rt, move || looping.run())?;
            self.loops.push(thread)?;
        }
        Ok(())
    }

    /// Waits until all loops have ended, to which nobody deals any more, and then for a second at most until the log
    /// is written. Answers whether the clients of one loop at least have all gone.
    fn end<M: Host>(self, rt: &M) -> bool {
        let Crew { loops, written } = self;
        let mut are_gone = false;
        for thread in loops {
            are_gone |= thread.join(rt);
        }
        if let Some(written) = written {
            let _ended = written.recv_timeout(rt, Duration::from_millis(LAST_LINES));
        }
        are_gone
    }
}
