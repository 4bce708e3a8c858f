//! The loop itself, and what it asks the gate.
ghost use Rattle.std.specs.Prelude.{◌≡◌};
ghost use Rattle.bg_event_loop.specs.Seats.{AllServed, AllUsed};
ghost use Rattle.bg_forward.specs.Seats.{AllOut};
ghost use Rattle.bg_rollout.specs.Gathering.{indices};

use crate::endpoint_ports::EndpointPorts;
use crate::event_loop::{EventLoop, LoopTerms};
use crate::request_log::RequestLog;
use crate::seating::{enter_at, is_cut, leave_all, leave_at};
use crate::settings::LoopSettings;
use bg_book::laws as book_laws;
use bg_forward::Gate;
use bg_ledger::{Names, Seat};
use bg_loop_port::LoopPort;
use bg_sockets::EpollSet;
use os::EpollEvent;
use std::alloc::Global;
use std::io;
use std::io::ErrorKind;
use std::sync::Wait;
use std::time::Clock;

/// The maximum number of events that a loop takes at once.
const MOST_EVENTS: usize = 256;

/// The interval, in milliseconds, at which timeouts are looked at.
const SWEEP_MILLIS: u64 = 500;

/// What the loops of a port share.
#[derive(Drop)]
pub struct LoopContext<'a, G, P, L> {
    pub alloc: Global,
    /// Where requests enter and leave.
    pub gate: &'a G,
    /// The ports at which they are dialled.
    pub ports: &'a P,
    /// Where the ends of requests are logged.
    pub log: &'a L,
    /// The port at which clients are accepted.
    pub port: &'a LoopPort,
    pub settings: LoopSettings,
}

/// Serves clients on these seats until the port is closed and no client is left. An error if a system call or an
/// allocation fails before the first client is accepted.
///
/// Every seat is out at the end and has its place, and its number of calls has risen by two for each of its requests that
/// entered.
pub fn run_event_loop<N: Names, R: Clock + Wait, G: Gate<N>, P: EndpointPorts, L: RequestLog>(
    rt: &R,
    context: &LoopContext<'_, G, P, L>,
    seats: &mut [Seat<N>],
) -> io::Result<()>
    requires { AllOut seats.old }
    ensures served { AllServed seats.old seats.new }
    ensures order { indices seats.new ≡ indices seats.old }
{
    book_laws::same_order();
    let served = serve_clients(rt, context, seats);
    leave_all(context.gate, seats);
    served
}

/// Serves clients until the port is closed and no client is left.
fn serve_clients<N: Names, R: Clock + Wait, G: Gate<N>, P: EndpointPorts, L: RequestLog>(
    rt: &R,
    context: &LoopContext<'_, G, P, L>,
    seats: &mut [Seat<N>],
) -> io::Result<()>
    ensures { AllUsed seats.old seats.new }
{
    let set = EpollSet::new()?;
    let terms = LoopTerms {
        alloc: context.alloc,
        settings: context.settings,
        seats: seats.len(),
        number: context.port.take_number(),
    };
    let mut connections = EventLoop::new(terms, &set, context.port, context.ports, context.log)?;
    // one buffer for all waits, since it is zeroed
    let mut events = vec![in context.alloc; EpollEvent { events: 0, data: 0 }; MOST_EVENTS]?;
    watch_port(&mut connections)?;
    context.port.note_begun();
    let mut swept = 0;
    for _ in rt.forever() {
        let wait = connections.begin_wait();
        note_events(rt, &mut connections, events.as_mut_slice(), wait);
        if connections.now.saturating_sub(swept) >= SWEEP_MILLIS {
            // a signal may have interrupted the wait, and what has come in time is not late
            note_events(rt, &mut connections, events.as_mut_slice(), 0);
            swept = connections.now;
            connections.sweep();
        }
        serve_round(rt, context, &mut connections, events.as_mut_slice(), seats);
        connections.pass_on();
        connections.regulate();
        connections.reuse_keys();
        if connections.is_over() {
            return Ok(());
        }
    }
    unreachable!()
}

/// Watches the listeners, the signal of the port, and that of the loop.
fn watch_port<P: EndpointPorts, L: RequestLog>(
    connections: &mut EventLoop<'_, P, L>,
) -> io::Result<()> {
    connections.watch_signals()?;
    if connections.watch_listeners() {
        Ok(())
    } else {
        Err(io::Error::from(ErrorKind::Other))
    }
}

/// Waits for events for so many milliseconds at most, and notes as many as there is room for. Gives whether these are all.
fn note_events<R: Clock, P: EndpointPorts, L: RequestLog>(
    rt: &R,
    connections: &mut EventLoop<'_, P, L>,
    events: &mut [EpollEvent],
    millis: i32,
) -> bool {
    let count = connections.set.wait(events, millis);
    connections.end_wait();
    connections.now = connections.port.now(rt);
    for event in events.iter().take(count) {
        connections.note(event);
    }
    connections.end_pause();
    if connections.port.is_shut_down() {
        connections.begin_closing();
    } else if connections.port.is_closed() {
        connections.unwatch_listeners();
    }
    count < events.len()
}

/// Serves the clients that are to be served, lets requests enter, and begins to forward them.
fn serve_round<N: Names, R: Clock, G: Gate<N>, P: EndpointPorts, L: RequestLog>(
    rt: &R,
    context: &LoopContext<'_, G, P, L>,
    connections: &mut EventLoop<'_, P, L>,
    events: &mut [EpollEvent],
    seats: &mut [Seat<N>],
)
    ensures { AllUsed seats.old seats.new }
{
    serve_due(context, connections, seats);
    note_before_entering(rt, connections, events);
    admit_and_serve(context, connections, seats);
}

/// Notes what has come since the last events, if several requests are to enter, so that kept connections on which something has
/// come carry none of them. For a single request, the connection that it takes is read once instead.
fn note_before_entering<R: Clock, P: EndpointPorts, L: RequestLog>(
    rt: &R,
    connections: &mut EventLoop<'_, P, L>,
    events: &mut [EpollEvent],
) {
    if connections.queue.waiting() > 1 && connections.endpoints.has_kept() {
        connections.endpoints.are_noted = note_events(rt, connections, events, 0);
    }
}

/// Lets requests enter, and serves the clients that are to be served then.
fn admit_and_serve<N: Names, G: Gate<N>, P: EndpointPorts, L: RequestLog>(
    context: &LoopContext<'_, G, P, L>,
    connections: &mut EventLoop<'_, P, L>,
    seats: &mut [Seat<N>],
)
    ensures { AllUsed seats.old seats.new }
{
    admit(context, connections, seats);
    connections.endpoints.are_noted = false;
    serve_due(context, connections, seats);
}

/// Serves the clients that are to be served. The gate is asked whether the request of each goes on, if draining is limited, and a
/// request that is over leaves there.
fn serve_due<N: Names, G: Gate<N>, P: EndpointPorts, L: RequestLog>(
    context: &LoopContext<'_, G, P, L>,
    connections: &mut EventLoop<'_, P, L>,
    seats: &mut [Seat<N>],
)
    ensures { AllUsed seats.old seats.new }
{
    for _ in 0..connections.due.len() {
        let Some(key) = connections.due.pop_front() else {
            return;
        };
        let limits_drains = context.settings.limits_drains;
        let is_given_up = is_cut(context.gate, limits_drains, seats, connections.seat_of(key));
        let over = connections.serve(key, is_given_up);
        leave_at(context.gate, seats, over);
        connections.note_left(over);
    }
}

/// Lets the requests enter that wait longest, as long as a seat is free and the port has a place.
fn admit<N: Names, G: Gate<N>, P: EndpointPorts, L: RequestLog>(
    context: &LoopContext<'_, G, P, L>,
    connections: &mut EventLoop<'_, P, L>,
    seats: &mut [Seat<N>],
)
    ensures { AllUsed seats.old seats.new }
{
    for _ in 0..connections.queue.waiting() {
        let Some(entered) = connections.next_to_enter() else {
            return;
        };
        let ticket = enter_at(context.gate, context.settings.service, seats, entered.seat);
        let refused = connections.begin(entered, ticket);
        leave_at(context.gate, seats, refused);
        connections.note_left(refused);
    }
}
