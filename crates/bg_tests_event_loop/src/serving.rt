//! Opens a book, and serves clients by it until a shutdown.
ghost use Rattle.std.specs.Prelude.{◌≡◌};
ghost use Rattle.bg_forward.specs.Seats.{AllOut};
ghost use Rattle.bg_ledger.specs.Blanks.{AreAllFor};
ghost use Rattle.bg_rollout.specs.Gathering.{indices};

use crate::orders::carry_out_orders;
use crate::stop::Stop;
use crate::words::Words;
use bg_access_log::AccessLog;
use bg_book::{Book, Control, Desk, Limits, RolloutOpening, SeatLimit};
use bg_endpoints::{Directory, OwnPorts, PortList, PortLists, Share};
use bg_event_loop::{BookPorts, KeptSettings, LoopContext, LoopSettings, run_event_loop};
use bg_forward::DeskGate;
use bg_http::Persistence;
use bg_ledger::{Blanks, Names, Seat};
use bg_loop_port::{LoopPort, LoopPortSettings};
use bg_request_log::ServiceLog;
use bg_revisions::Service;
use bg_strategy::Strategy;
use bg_strategy_text::read;
use std::alloc::{AllocError, Global};
use std::marker::Brand;
use std::net::TcpListener;
use std::sync::Wait;
use std::sync::atomic::AtomicU64;
use std::thread::{Threads, join_mut};
use std::time::Clock;

/// The number of seats.
const SEATS: u32 = 4;

/// How long connections are kept, if they are.
const KEPT: KeptSettings = KeptSettings {
    most_requests: 1_000,
    client_millis: 75_000,
    most_endpoints: 1_024,
    endpoint_millis: 60_000,
};

/// The strategy for revisions of one endpoint, and of two.
const ONE: &[u8] =
    b"{\"spec\":{\"replicas\":1,\"strategy\":{\"blueGreen\":{\"activeService\":\"web\"}}}}";

const TWO: &[u8] =
    b"{\"spec\":{\"replicas\":2,\"strategy\":{\"blueGreen\":{\"activeService\":\"web\"}}}}";

/// What a run needs.
#[derive(Drop)]
pub struct Run<'a, R> {
    pub rt: &'a R,
    pub alloc: Global,
    pub port: &'a LoopPort,
    /// The directory of the endpoints, if a request may be dialled at another port than its ticket's.
    pub directory: Option<&'a Directory>,
    pub strategy: &'a Strategy,
    pub log: &'a AccessLog,
    pub words: &'a Words,
}

/// Serves clients of the listener as the words say. Returns after a shutdown, which the end of the input begins, and gives
/// how many requests entered.
pub fn serve<R>(rt: &R, listener: TcpListener, words: &Words) -> Result<u64, Stop>
where
    R: AllocGlobal + Input + Threads + Wait + Clock + Sync,
{
    let alloc = rt.alloc();
    let mut listeners = Vec::with_capacity(alloc, 1)?;
    if listeners.push(listener).is_err() {
        return Err(Stop::OutOfMemory);
    }
    let port = LoopPort::new(
        rt,
        alloc,
        listeners,
        LoopPortSettings {
            loops: 1,
            concurrency: u64::from(SEATS),
            connections: None,
        },
    )?;
    let directory = directory_for(rt, alloc, words)?;
    let log = AccessLog::open(alloc, words.log.as_str())?;
    let strategy = read(alloc, if words.endpoints.len() == 1 { ONE } else { TWO })?;
    let run = Run {
        rt,
        alloc,
        port: &port,
        directory: directory.as_ref(),
        strategy: &strategy,
        log: &log,
        words,
    };
    let blanks = Blanks::new();
    let entered = open_and_serve::<Brand, R>(&run, blanks);
    log.end();
    log.run_writer(rt);
    entered
}

/// A directory with the list of the first revision, if a request may be dialled at another port than its ticket's.
fn directory_for<R: Wait + Clock>(
    rt: &R,
    alloc: Global,
    words: &Words,
) -> Result<Option<Directory>, AllocError> {
    if !words.redispatches {
        return Ok(None);
    }
    let share = Share {
        given: None,
        concurrency: SEATS,
    };
    let directory = Directory::new(rt, alloc, share);
    let mut lists = PortLists::new(alloc);
    lists.add(PortList::new(alloc, &words.endpoints, words.endpoints.len())?)?;
    directory.set(rt, lists);
    Ok(Some(directory))
}

/// Opens the book, serves clients to the end, and closes the book. Gives how many requests entered.
fn open_and_serve<'a, N: Names + Send + Sync, R>(
    run: &Run<'a, R>,
    blanks: Blanks,
) -> Result<u64, Stop>
where
    R: Input + Threads + Wait + Clock + Sync,
    requires blanks { AreAllFor N.Names blanks }
    requires seats { N.seats ≡ 4 }
{
    let opening = RolloutOpening {
        strategy: run.strategy,
        name: "v1",
        ports: &run.words.endpoints,
        seats: SEATS,
        limits: Limits::usual(),
    };
    let (book, mut seats) = Book::<N>::open(run.alloc, SeatLimit::Many, &opening, blanks)?;
    let desk = Desk::new(book);
    make_available(run, &desk);
    let has_served = serve_beside_input(run, &desk, seats.as_mut_slice());
    let entered = entered_at(seats.as_slice());
    let _history = desk.into_book().close(seats);
    if has_served {
        Ok(entered)
    } else {
        Err(Stop::SystemCallFailed)
    }
}

/// How many requests entered at these seats and left.
fn entered_at<N: Names>(seats: &[Seat<N>]) -> u64 {
    let mut calls = 0u64;
    for seat in seats.iter() {
        calls = calls.saturating_add(seat.calls());
    }
    calls / 2
}

/// Says that the endpoints are available. If that is refused, each request is.
fn make_available<'a, N: Names, R: Wait>(run: &Run<'a, R>, desk: &Desk<N>) {
    let available = Control::Available {
        revision: 1,
        size: u32::try_from(run.words.endpoints.len()).unwrap_or(u32::MAX),
    };
    let _ = desk.control_with_compaction(run.rt, &available);
}

/// Serves clients by the desk on seats that are out, and carries out in parallel the orders of the input. Each seat keeps its place.
/// Gives whether the loop has run.
fn serve_beside_input<'a, N: Names + Send + Sync, R>(
    run: &Run<'a, R>,
    desk: &Desk<N>,
    seats: &mut [Seat<N>],
) -> bool
where
    R: Input + Threads + Wait + Clock + Sync,
    requires { AllOut seats.old }
    ensures { indices seats.new ≡ indices seats.old }
{
    let mut has_served = false;
    join_mut(
        run.rt,
        &mut ||
            requires { AllOut seats.now }
            ensures { indices seats.exit.now ≡ indices seats.entry.now }
        { has_served = serve_seats(run, desk, seats) },
        &mut || carry_out_orders(run, desk),
    );
    has_served
}

/// Serves clients by the desk on seats that are out. Each seat keeps its place. Gives whether the loop has run.
fn serve_seats<'a, N: Names, R: Wait + Clock>(
    run: &Run<'a, R>,
    desk: &Desk<N>,
    seats: &mut [Seat<N>],
) -> bool
    requires { AllOut seats.old }
    ensures { indices seats.new ≡ indices seats.old }
{
    let gate = DeskGate::new(run.rt, desk);
    let ports = BookPorts {
        rt: run.rt,
        desk,
        directory: run.directory,
        own: OwnPorts {
            active: Some(run.words.port),
            preview: None,
            control: None,
        },
    };
    let refused_for_room = AtomicU64::new(0);
    let cut_responses = AtomicU64::new(0);
    let log = ServiceLog {
        rt: run.rt,
        alloc: run.alloc,
        service: Service::Active,
        log: Some(run.log),
        redispatches: run.words.redispatches,
        keeps_connections: run.words.persistence == Persistence::Keep,
        number_offset: 0,
        refused_for_room: &refused_for_room,
        cut_responses: &cut_responses,
    };
    let context = LoopContext {
        alloc: run.alloc,
        gate: &gate,
        ports: &ports,
        log: &log,
        port: run.port,
        settings: settings_of(run.words),
    };
    run_event_loop(run.rt, &context, seats).is_ok()
}

fn settings_of(words: &Words) -> LoopSettings {
    let usual = LoopSettings::usual(Service::Active).with_refusal_body(words.refusal_body);
    match words.persistence {
        Persistence::Close => usual,
        Persistence::Keep => usual.with_kept_connections(KEPT),
    }
}
