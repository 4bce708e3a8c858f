//! The event loops of a port, each in a thread of its own.
ghost use Rattle.std.specs.Prelude.{◌<◌};
ghost use Rattle.bg_event_loop.specs.Seats.{AllServed};
ghost use Rattle.bg_forward.specs.Seats.{AllOut};

use crate::endpoint_ports::EndpointPorts;
use crate::request_log::RequestLog;
use crate::running::{LoopContext, run_event_loop};
use bg_forward::Gate;
use bg_ledger::{Names, Seat};
use std::sync::Wait;
use std::thread;
use std::thread::Threads;
use std::time::Clock;

/// Serves clients on these seats by so many loops, each in a thread of its own and on an equal part of the seats, until the port
/// is closed and no client is left. A loop does not begin if a system call or an allocation fails before its first client
/// ([`LoopPort::loops_begun`](bg_loop_port::LoopPort::loops_begun)). If no thread can be started, the loops run one after the
/// other.
///
/// Every seat is out at the end and has its place, and its number of calls has risen by two for each of its requests that
/// entered.
pub fn run_event_loops<
    N: Names + Send + Sync,
    R: Threads + Clock + Wait + Sync,
    G: Gate<N> + Sync,
    P: EndpointPorts + Sync,
    L: RequestLog + Sync,
>(rt: &R, context: &LoopContext<'_, G, P, L>, seats: &mut [Seat<N>], loops: usize)
    requires { AllOut seats.old }
    ensures { AllServed seats.old seats.new }
{
    let size = seats_of_a_loop(seats.len(), loops);
    thread::for_each_chunk_mut(
        rt,
        seats,
        size,
        &|_, part: &mut [Seat<N>]|
            requires { AllOut part.old }
            ensures { AllServed part.old part.new }
        {
            // a loop that does not begin is reported by the number of those that have
            let _ = run_event_loop(rt, context, part);
        },
    );
}

/// The number of seats of each of so many loops.
fn seats_of_a_loop(seats: usize, loops: usize) -> usize
    ensures { 0 < result }
{
    seats.div_ceil(loops.max(1)).max(1)
}
