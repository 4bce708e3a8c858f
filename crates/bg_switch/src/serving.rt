//! Serves clients, and answers operators in parallel.
ghost use Rattle.bg_event_loop.specs.Seats.{AllServed};
ghost use Rattle.bg_forward.specs.Seats.{AllOut};

use crate::context::ServeContext;
use crate::loops::serve_by_loops;
use crate::operators::{Operator, answer_operators};
use bg_book::Desk;
use bg_ledger::{Names, Seat};
use bg_script::{NumberedJournal, OrderJournal};
use std::sync::Wait;
use std::thread::{Threads, join_mut};
use std::time::Clock;

/// Serves the clients of both services, and answers operators in parallel. Returns when both are done. If there is a journal,
/// it keeps the orders of operators.
pub fn serve_beside_operators<
    'a,
    N: Names + Send + Sync,
    R: Threads + Wait + Clock + Sync,
    J: OrderJournal,
>(
    context: &ServeContext<'a, R>,
    desk: &Desk<N>,
    seats: &mut [Seat<N>],
    operator: &mut Operator<R>,
    journal: &mut Option<NumberedJournal<J>>,
)
    requires { AllOut seats.old }
    ensures { AllServed seats.old seats.new }
{
    join_mut(
        context.rt,
        &mut ||
            requires { AllOut seats.now }
            ensures { AllServed seats.entry.now seats.exit.now }
        { serve_beside_log_writer(context, desk, seats) },
        &mut || run_operators(context, desk, operator, journal),
    );
}

/// Answers operators up to `quit`, and then closes the control port. If a shutdown is asked for, begins that of
/// the client ports.
fn run_operators<'a, N: Names, R: Clock + Wait, J: OrderJournal>(
    context: &ServeContext<'a, R>,
    desk: &Desk<N>,
    operator: &mut Operator<R>,
    journal: &mut Option<NumberedJournal<J>>,
) {
    answer_operators(context, desk, operator, journal);
    context.ports.control.close(context.rt);
    if context.shuts_down {
        context.ports.close_client_ports();
    }
}

/// Serves the clients of both services beside the writer of the access log. Returns when both are done. If the system
/// refuses a thread, the writer runs last.
fn serve_beside_log_writer<'a, N: Names + Send + Sync, R: Threads + Wait + Clock + Sync>(
    context: &ServeContext<'a, R>,
    desk: &Desk<N>,
    seats: &mut [Seat<N>],
)
    requires { AllOut seats.old }
    ensures { AllServed seats.old seats.new }
{
    join_mut(
        context.rt,
        &mut || run_log_writer(context),
        &mut ||
            requires { AllOut seats.now }
            ensures { AllServed seats.entry.now seats.exit.now }
        { serve_clients(context, desk, seats) },
    );
}

/// Writes the lines of the access log until no further line comes.
fn run_log_writer<R: Wait + Clock>(context: &ServeContext<R>) {
    if let Some(log) = context.log {
        log.run_writer(context.rt);
    }
}

/// Serves the clients of both services, and then ends the writer of the access log.
fn serve_clients<'a, N: Names + Send + Sync, R: Threads + Wait + Clock + Sync>(
    context: &ServeContext<'a, R>,
    desk: &Desk<N>,
    seats: &mut [Seat<N>],
)
    requires { AllOut seats.old }
    ensures { AllServed seats.old seats.new }
{
    serve_by_loops(context, desk, seats);
    if let Some(log) = context.log {
        log.end();
    }
}
