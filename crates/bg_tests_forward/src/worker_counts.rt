//! The number of connections that a worker takes from its port, and the outcome of each that the
//! port gets.
ghost use Rattle.std.specs.Prelude.{◌≡◌, length};
ghost use Rattle.bg_rollout.specs.Gathering.{indices};
ghost use Rattle.bg_forward.specs.Seats.{AllOut};
ghost use Rattle.bg_ledger.specs.Blanks.{AreAllFor};

use crate::books::{close, open};
use crate::fakes::{FakeStream, STEADY};
use crate::messages::{CHUNKS, GET};
use crate::ports::{Counts, NextClient, Ports, RisingCounts};
use crate::samples::{opening, strategy};
use bg_book::{Desk, laws as book_laws};
use bg_forward::{DeskGate, Dial, Dialled, WorkerContext, run_workers};
use bg_ledger::{Blanks, Names, Seat};
use bg_revisions::Service;
use std::alloc::Global;
use std::io;
use std::marker::Brand;
use std::sync::Wait;
use std::test::Fail;
use std::thread::Threads;

/// An endpoint at every port.
#[derive(Drop)]
struct AnyPort {
    alloc: Global,
}

impl Dial for AnyPort {
    type Stream = FakeStream<'static>;

    fn dial(&self, port: u16) -> Dialled<FakeStream<'static>> {
        let stream = FakeStream::new(self.alloc, CHUNKS.as_bytes(), STEADY);
        Dialled::once(port, Ok(stream))
    }
}

/// Serves at a seat for each service, each for up to this many connections.
fn work_both<N: Names + Send + Sync, R: Threads + Wait + Sync>(
    rt: &R,
    desk: &Desk<N>,
    seats: &mut [Seat<N>],
    ports: &Ports,
    count: u64,
)
    requires two { length seats.old ≡ 2 }
    requires out { AllOut seats.old }
    ensures { indices seats.new ≡ indices seats.old }
{
    book_laws::same_order();
    let desk_gate = DeskGate::new(rt, desk);
    let services = [Service::Active, Service::Preview];
    let endpoint = AnyPort { alloc: ports.alloc };
    let context = WorkerContext {
        alloc: ports.alloc,
        gate: &desk_gate,
        accept: ports,
        dial: &endpoint,
    };
    run_workers(rt, &context, seats, &services, count);
}

/// Serves at the seats of a book that has no preview service.
fn open_and_work_both<N: Names + Send + Sync, R: Threads + Wait + Sync>(
    rt: &R,
    alloc: Global,
    ports: &Ports,
    count: u64,
    blanks: Blanks,
) -> Result<(), Fail>
    requires blanks { AreAllFor N.Names blanks }
    requires seats { N.seats ≡ 2 }
{
    book_laws::lent();
    let strategy = strategy(alloc)?;
    let (desk, mut seats) = open::<N, R>(rt, alloc, &opening(&strategy, 2), 2, blanks)?;
    work_both(rt, &desk, seats.as_mut_slice(), ports, count);
    let _history = close(desk, seats);
    Ok(())
}

/// The outcome of up to this many connections for each worker.
fn counts_of<R: Threads + Wait + Sync>(
    rt: &R,
    alloc: Global,
    accepted: &[NextClient],
    count: u64,
) -> Result<Counts, Fail> {
    let counts = RisingCounts::new();
    let ports = Ports {
        alloc,
        accepted,
        counts: &counts,
    };
    open_and_work_both::<Brand, R>(rt, alloc, &ports, count, Blanks::new())?;
    Ok(counts.counts())
}

/// What the ports give, up to how many connections a worker takes, and the expected counts. The clients of one worker
/// are answered; those of the other are refused because no preview service is set.
struct Run {
    name: &'static str,
    accepted: &'static [NextClient],
    count: u64,
    expected: Counts,
}

/// No connection.
const NONE: Counts = Counts {
    active_accepts: 0,
    preview_accepts: 0,
    whole: 0,
    other: 0,
    answered: 0,
    unavailable: 0,
};

/// Each worker served two of the four results of its port.
const TWO_OF_FOUR: Counts = Counts {
    active_accepts: 4,
    preview_accepts: 4,
    whole: 2,
    other: 2,
    answered: 2,
    unavailable: 2,
};

const ENDING: &[NextClient] = &[
    NextClient::Client(GET),
    NextClient::Fails,
    NextClient::Client(GET),
    NextClient::Ends,
];

static RUNS: [Run; 7] = [
    Run {
        name: "no connection",
        accepted: &[],
        count: 0,
        expected: NONE,
    },
    Run {
        name: "one connection",
        accepted: &[],
        count: 1,
        expected: Counts {
            active_accepts: 1,
            preview_accepts: 1,
            whole: 1,
            other: 1,
            answered: 1,
            unavailable: 1,
        },
    },
    Run {
        name: "three connections",
        accepted: &[],
        count: 3,
        expected: Counts {
            active_accepts: 3,
            preview_accepts: 3,
            whole: 3,
            other: 3,
            answered: 3,
            unavailable: 3,
        },
    },
    Run {
        name: "an accept that fails counts",
        accepted: &[
            NextClient::Fails,
            NextClient::Client(GET),
            NextClient::Fails,
        ],
        count: 4,
        expected: TWO_OF_FOUR,
    },
    Run {
        name: "no further connection comes",
        accepted: ENDING,
        count: 10,
        expected: TWO_OF_FOUR,
    },
    Run {
        name: "no further connection comes, and there is no limit",
        accepted: ENDING,
        count: u64::MAX,
        expected: TWO_OF_FOUR,
    },
    Run {
        name: "requests that are not read whole",
        accepted: &[
            NextClient::Client("GET /a HTTP/1.1\r\nHost: x\r\n"),
            NextClient::Client("GET /a HTTP/1.1\r\n\r\n"),
        ],
        count: 2,
        expected: Counts {
            active_accepts: 2,
            preview_accepts: 2,
            other: 4,
            ..NONE
        },
    },
];

#[test]
fn workers_count_their_connections(rt: HostRuntime) -> Result<(), Fail> {
    for run in &RUNS {
        let counts = counts_of(&rt, rt.alloc(), run.accepted, run.count)?;
        assert_eq!(rt; counts, run.expected, "{}", run.name);
    }
    Ok(())
}
