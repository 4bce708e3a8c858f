//! Workers, each in a thread of its own.
ghost use Rattle.std.specs.Prelude.{◌≡◌, length, Some};
ghost use Rattle.bg_rollout.specs.Gathering.{indices};
ghost use Rattle.bg_forward.specs.Clients.{IsServed};
ghost use Rattle.bg_http.specs.declared.refusal.RefusalBody.TheVariants as body;
ghost use Rattle.bg_forward.specs.Seats.{AllOut, AllWorked};
ghost use Rattle.bg_ledger.specs.Blanks.{AreAllFor};

use crate::books::{close, open};
use crate::fakes::{FakeStream, STEADY};
use crate::messages::{CHUNKS, CHUNKS_ON, GET};
use crate::samples::{opening, strategy};
use bg_book::{Control, Desk, EnterFault, GoOn, Left, Ticket, laws as book_laws};
use bg_forward::{
    Accept, Arrived, ClientStream, DeskGate, Dial, Dialled, Gate, RefusalBody, Served,
    WorkerContext, receive_in_memory, run_workers,
};
use bg_http::MemoryStream;
use bg_ledger::{Blanks, Names, Seat};
use bg_revisions::Service;
use std::alloc::Global;
use std::io::{ErrorKind, Read, Write};
use std::marker::Brand;
use std::sync::Wait;
use std::sync::atomic::{AtomicU64, Ordering};
use std::test::Fail;
use std::thread::{Threads, join_mut};
use std::{io, thread};

/// The number of times that the first endpoint checks whether the second request was answered.
const CHECKS: u32 = 10_000_000;

/// The number of ticks that are made in parallel with the workers.
const TICKS: u64 = 100;

/// The progress of the requests.
#[derive(Drop)]
struct WorkerCounts {
    /// The number of connections to endpoints that were opened.
    dialled: AtomicU64,
    /// The number of clients to which the whole answer was written.
    answered: AtomicU64,
    /// The number of requests that have left.
    left: AtomicU64,
    /// The number of requests that left before as many clients were answered.
    left_early: AtomicU64,
}

/// A gate that counts the requests that leave.
#[derive(Drop)]
struct Counted<'a, G> {
    behind: &'a G,
    counts: &'a WorkerCounts,
}

impl<N: Names, G: Gate<N>> Gate<N> for Counted<'_, G> {
    fn enter(&self, seat: &mut Seat<N>, service: Service) -> Result<Ticket, EnterFault> {
        self.behind.enter(seat, service)
    }

    fn may_go_on(&self, seat: &mut Seat<N>) -> GoOn {
        self.behind.may_go_on(seat)
    }

    fn leave(&self, seat: &mut Seat<N>) -> Left {
        let left = self.counts.left.fetch_add(1, Ordering::SeqCst);
        if self.counts.answered.load(Ordering::SeqCst) <= left {
            self.counts.left_early.fetch_add(1, Ordering::SeqCst);
        }
        self.behind.leave(seat)
    }
}

/// Clients that all ask the same.
#[derive(Clone, Copy, Drop)]
struct Clients<'a> {
    alloc: Global,
    counts: &'a WorkerCounts,
}

/// A client that reports when it was answered. Nothing can be read from it.
#[derive(Drop)]
struct Client<'a> {
    stream: MemoryStream<'static>,
    counts: &'a WorkerCounts,
}

impl Write for Client<'_> {
    ghost contents = { λ client. Some client.stream.written.items };

    fn write(&mut self, buf: &[u8]) -> io::Result<usize> {
        self.stream.write(buf)
    }

    fn flush(&mut self) -> io::Result<()> {
        if self.stream.written.as_slice() == CHUNKS_ON.as_bytes() {
            self.counts.answered.fetch_add(1, Ordering::SeqCst);
        }
        Ok(())
    }
}

impl ClientStream for Client<'_> {
    fn has_gone(&mut self) -> bool {
        self.stream.has_gone()
    }
}

impl<'a> Accept for Clients<'a> {
    type Stream = Client<'a>;

    type Sender = &'static [u8];

    ghost sent = { λ input. Some input.now };

    ghost refusals = { λ _. body.Empty };

    fn refusal_body(&self) -> RefusalBody {
        RefusalBody::Empty
    }

    fn accept(&self, _service: Service) -> io::Result<Option<Arrived<Client<'a>, &'static [u8]>>> {
        let Arrived {
            stream,
            sender,
            received,
        } = receive_in_memory(self.alloc, GET.as_bytes());
        let client = Client {
            stream,
            counts: self.counts,
        };
        Ok(Some(Arrived {
            stream: client,
            sender,
            received,
        }))
    }

    fn close(&self, _client: Arrived<Client<'a>, &'static [u8]>, _served: &Served)
        requires connection { IsServed body.Empty (Some _client.sender.now) (Some _client.stream.stream.written.items)
            _client.received _served.now.entered _served.now.end }
    {}
}

/// An endpoint whose first connection waits until a client was answered.
#[derive(Drop)]
struct WaitingEndpoint<'a> {
    alloc: Global,
    counts: &'a WorkerCounts,
}

/// A connection to it.
#[derive(Drop)]
struct WaitingStream<'a> {
    stream: FakeStream<'a>,
    waits: bool,
    counts: &'a WorkerCounts,
}

impl WaitingStream<'_> {
    /// Waits until a client was answered. Returns whether one was.
    fn wait(&self) -> bool {
        for _ in 0..CHECKS {
            if self.counts.answered.load(Ordering::SeqCst) > 0 {
                return true;
            }
            thread::yield_now();
        }
        false
    }
}

impl Read for WaitingStream<'_> {
    fn read(&mut self, buf: &mut [u8]) -> io::Result<usize> {
        if self.waits {
            if !self.wait() {
                return Err(io::Error::from(ErrorKind::TimedOut));
            }
            self.waits = false;
        }
        self.stream.read(buf)
    }
}

impl Write for WaitingStream<'_> {
    fn write(&mut self, buf: &[u8]) -> io::Result<usize> {
        self.stream.write(buf)
    }

    fn flush(&mut self) -> io::Result<()> {
        Ok(())
    }
}

impl<'a> Dial for WaitingEndpoint<'a> {
    type Stream = WaitingStream<'a>;

    fn dial(&self, port: u16) -> Dialled<WaitingStream<'a>> {
        let before = self.counts.dialled.fetch_add(1, Ordering::SeqCst);
        let stream = WaitingStream {
            stream: FakeStream::new(self.alloc, CHUNKS.as_bytes(), STEADY),
            waits: before == 0,
            counts: self.counts,
        };
        Dialled::once(port, Ok(stream))
    }
}

/// Runs workers on the seats at a gate, one for each service.
fn run<N: Names + Send + Sync, R: Threads + Wait + Sync, G: Gate<N> + Sync>(
    rt: &R,
    gate: &G,
    seats: &mut [Seat<N>],
    services: &[Service],
    clients: Clients,
)
    requires services { length services.now ≡ length seats.old }
    requires out { AllOut seats.old }
    ensures { AllWorked 1 seats.old seats.new }
{
    let Clients { alloc, counts } = clients;
    let endpoint = WaitingEndpoint { alloc, counts };
    let context = WorkerContext {
        alloc,
        gate,
        accept: &clients,
        dial: &endpoint,
    };
    run_workers(rt, &context, seats, services, 1);
}

/// Runs workers on the seats at the gate of a desk, one for each service.
fn work<N: Names + Send + Sync, R: Threads + Wait + Sync>(
    rt: &R,
    desk: &Desk<N>,
    seats: &mut [Seat<N>],
    services: &[Service],
    clients: Clients,
)
    requires services { length services.now ≡ length seats.old }
    requires out { AllOut seats.old }
    ensures { indices seats.new ≡ indices seats.old }
{
    book_laws::same_order();
    let desk_gate = DeskGate::new(rt, desk);
    let gate = Counted {
        behind: &desk_gate,
        counts: clients.counts,
    };
    run(rt, &gate, seats, services, clients);
}

/// Runs workers without seats.
fn work_none<N: Names + Send + Sync, R: Threads + Wait + Sync>(
    rt: &R,
    desk: &Desk<N>,
    seats: &mut [Seat<N>],
    clients: Clients,
)
    ensures { indices seats.new ≡ indices seats.old }
{
    book_laws::same_order();
    let desk_gate = DeskGate::new(rt, desk);
    run(rt, &desk_gate, &mut seats[..0], &[], clients);
}

/// Makes the ticks.
fn tick<N: Names, R: Wait>(rt: &R, desk: &Desk<N>) {
    for moment in 1..=TICKS {
        let _told = desk.control_with_compaction(rt, &Control::Tick(moment));
    }
}

/// Runs workers on the seats, and makes the ticks in parallel.
fn work_and_tick<N: Names + Send + Sync, R: Threads + Wait + Sync>(
    rt: &R,
    desk: &Desk<N>,
    seats: &mut [Seat<N>],
    clients: Clients,
)
    requires two { length seats.old ≡ 2 }
    requires out { AllOut seats.old }
    ensures { indices seats.new ≡ indices seats.old }
{
    join_mut(
        rt,
        &mut ||
            requires { (length seats.now ≡ 2) × AllOut seats.now }
            ensures { indices seats.exit.now ≡ indices seats.entry.now }
        {
            work(
                rt,
                desk,
                seats,
                &[Service::Active, Service::Active],
                clients,
            )
        },
        &mut || tick(rt, desk),
    );
}

/// The number of calls of each of both seats.
fn calls_of_both<N: Names>(seats: &[Seat<N>]) -> [u64; 2] {
    match seats {
        [first, second] => [first.calls(), second.calls()],
        _ => [0, 0],
    }
}

/// The results that the test checks.
#[derive(Clone, Copy, PartialEq, Eq, Debug, Drop)]
struct Worked {
    /// The number of connections to endpoints that were opened, also by workers without seats.
    dialled: u64,
    calls: [u64; 2],
    entries: u64,
}

fn open_and_work<N: Names + Send + Sync, R: Threads + Wait + Sync>(
    rt: &R,
    alloc: Global,
    counts: &WorkerCounts,
    blanks: Blanks,
) -> Result<Worked, Fail>
    requires blanks { AreAllFor N.Names blanks }
    requires seats { N.seats ≡ 2 }
{
    book_laws::lent();
    let strategy = strategy(alloc)?;
    let (desk, mut seats) = open::<N, R>(rt, alloc, &opening(&strategy, 2), 2, blanks)?;
    let clients = Clients { alloc, counts };
    work_and_tick(rt, &desk, seats.as_mut_slice(), clients);
    work_none(rt, &desk, seats.as_mut_slice(), clients);
    let dialled = counts.dialled.load(Ordering::SeqCst);
    let calls = calls_of_both(&seats);
    let history = close(desk, seats);
    Ok(Worked {
        dialled,
        calls,
        entries: history.len(),
    })
}

fn with_new_names<R: Threads + Wait + Sync>(
    rt: &R,
    alloc: Global,
    counts: &WorkerCounts,
) -> Result<Worked, Fail> {
    open_and_work::<Brand, R>(rt, alloc, counts, Blanks::new())
}

#[test]
fn two_at_once(rt: HostRuntime) -> Result<(), Fail> {
    let counts = WorkerCounts {
        dialled: AtomicU64::new(0),
        answered: AtomicU64::new(0),
        left: AtomicU64::new(0),
        left_early: AtomicU64::new(0),
    };
    let worked = with_new_names(&rt, rt.alloc(), &counts)?;
    assert_eq!(rt; counts.answered.load(Ordering::SeqCst), 2);
    assert_eq!(rt; counts.left.load(Ordering::SeqCst), 2);
    assert_eq!(rt; counts.left_early.load(Ordering::SeqCst), 0);
    assert_eq!(rt; worked.dialled, 2);
    assert_eq!(rt; worked.calls, [2, 2]);
    assert_eq!(rt; worked.entries, 105);
    Ok(())
}
