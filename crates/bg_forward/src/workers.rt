//! Workers, each in a thread of its own.
ghost use Rattle.std.specs.Prelude.{◌≡◌, ◌<◌, length};
ghost use Rattle.bg_forward.specs.Seats.{AllOut, AllWorked, Worked};

use crate::buffered::Buffered;
use crate::gate::Gate;
use crate::serving::{Worker, serve_received};
use crate::streams::{Accept, Arrived};
use bg_dial::Dial;
use bg_ledger::{Names, Seat};
use bg_revisions::Service;
use std::alloc::Global;
use std::thread;
use std::thread::Threads;

/// What workers share.
#[derive(Drop)]
pub struct WorkerContext<'a, G, A, D> {
    pub alloc: Global,
    /// Where their requests enter and leave.
    pub gate: &'a G,
    /// Gives them the clients whose requests are over.
    pub accept: &'a A,
    /// Opens their connections to endpoints.
    pub dial: &'a D,
}

/// Serves up to `count` connections on each seat, one thread for each seat; `services` has the
/// service of each. A failed accept counts as one of the connections. The worker of a seat ends
/// early if no further connection comes. `u64::MAX` is a limit that is never reached. If no thread
/// can be started, the seats are served one after the other.
///
/// Every seat is out at the end, and its number of calls has risen by two for each of its
/// connections that entered.
pub fn run_workers<
    N: Names + Send + Sync,
    R: Threads + Sync,
    G: Gate<N> + Sync,
    A: Accept + Sync,
    D: Dial + Sync,
>(rt: &R, context: &WorkerContext<G, A, D>, seats: &mut [Seat<N>], services: &[Service], count: u64)
where
    A::Stream: Send,
    A::Sender: Send,
    D::Stream: Send,
    requires out { AllOut seats.old }
    requires services { length services.now ≡ length seats.old }
    ensures { AllWorked count seats.old seats.new }
{
    let threads = seats.len();
    if threads == 0 {
        return;
    }
    thread::for_each_mut(
        rt,
        seats,
        threads,
        &|place, seat: &mut Seat<N>|
            requires { (seat.old.number ≡ 0) × (place < length services.now) }
            ensures { Worked count seat.old seat.new }
        { work(context, seat, services[place], count) },
    );
}

/// Serves up to `count` connections on one seat. Each is ended with what was received on it and with its outcome.
fn work<N: Names, G: Gate<N>, A: Accept, D: Dial>(
    context: &WorkerContext<G, A, D>,
    seat: &mut Seat<N>,
    service: Service,
    count: u64,
)
    requires { seat.old.number ≡ 0 }
    ensures { Worked count seat.old seat.new }
{
    let worker = Worker {
        alloc: context.alloc,
        gate: context.gate,
        dial: context.dial,
        service,
    };
    let refusal_body = context.accept.refusal_body();
    for _ in 0..count {
        let Arrived {
            stream,
            sender,
            received,
        } = match context.accept.accept(service) {
            Ok(Some(arrived)) => arrived,
            Ok(None) => break,
            Err(_) => continue,
        };
        let mut client = Buffered::new(context.alloc, stream);
        let served = serve_received(&worker, seat, &received, refusal_body, &mut client);
        let stream = client.into_inner();
        let client = Arrived {
            stream,
            sender,
            received,
        };
        context.accept.close(client, &served);
    }
}
