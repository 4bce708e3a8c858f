//! Serves the clients of both services by event loops.
ghost use Rattle.bg_event_loop.specs.Seats.{AllServed};
ghost use Rattle.bg_forward.specs.Seats.{AllOut};

use crate::context::ServeContext;
use crate::loop_settings::settings_of;
use bg_book::Desk;
use bg_event_loop::{BookPorts, LoopContext, run_event_loops};
use bg_forward::DeskGate;
use bg_ledger::{Names, Seat};
use bg_request_log::ServiceLog;
use bg_revisions::Service;
use std::sync::Wait;
use std::thread;
use std::thread::Threads;
use std::time::Clock;

/// Serves the clients of both services by event loops, until their ports are closed and no client is left. The last seats are
/// those of the preview service; it has one loop for as many of them as the active service has.
pub fn serve_by_loops<'a, N: Names + Send + Sync, R: Threads + Wait + Clock + Sync>(
    context: &ServeContext<'a, R>,
    desk: &Desk<N>,
    seats: &mut [Seat<N>],
)
    requires { AllOut seats.old }
    ensures { AllServed seats.old seats.new }
{
    let actives = context.seats.saturating_sub(context.previews).max(1) as usize;
    thread::for_each_chunk_mut(
        context.rt,
        seats,
        actives,
        &|start, part: &mut [Seat<N>]|
            requires { AllOut part.old }
            ensures { AllServed part.old part.new }
        { serve_part(context, desk, start, part) },
    );
}

/// Serves the clients of the service that has the seats from this one on.
fn serve_part<'a, N: Names + Send + Sync, R: Threads + Wait + Clock + Sync>(
    context: &ServeContext<'a, R>,
    desk: &Desk<N>,
    start: usize,
    seats: &mut [Seat<N>],
)
    requires { AllOut seats.old }
    ensures { AllServed seats.old seats.new }
{
    if start == 0 {
        serve_port(context, desk, Service::Active, seats);
    } else {
        serve_port(context, desk, Service::Preview, seats);
    }
}

/// Serves the clients of a service by the event loops of its port, if it has one.
fn serve_port<'a, N: Names + Send + Sync, R: Threads + Wait + Clock + Sync>(
    context: &ServeContext<'a, R>,
    desk: &Desk<N>,
    service: Service,
    seats: &mut [Seat<N>],
)
    requires { AllOut seats.old }
    ensures { AllServed seats.old seats.new }
{
    let Some(port) = context.ports.of(service) else {
        return;
    };
    let gate = DeskGate::new(context.rt, desk);
    let ports = BookPorts {
        rt: context.rt,
        desk,
        directory: context.directory,
        own: context.ports.own,
    };
    let log = ServiceLog {
        rt: context.rt,
        alloc: context.alloc,
        service,
        log: context.log,
        redispatches: context.directory.is_some(),
        keeps_connections: context.words.keep_alive.is_some(),
        number_offset: context.number_offset,
        refused_for_room: context.notices.refused_requests(),
        cut_responses: context.notices.cut_responses(),
    };
    let loop_context = LoopContext {
        alloc: context.alloc,
        gate: &gate,
        ports: &ports,
        log: &log,
        port,
        settings: settings_of(context, service),
    };
    let loops = context.loops.of_service(service) as usize;
    run_event_loops(context.rt, &loop_context, seats, loops);
}
