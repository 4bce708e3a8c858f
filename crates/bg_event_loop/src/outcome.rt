//! How a request ended, for the log.
ghost use Rattle.std.specs.Prelude.{◌≡◌, None, Some, false, true};
ghost use Rattle.bg_endpoint_side.specs.Outcomes.{fault_status};
ghost use Rattle.bg_event_loop.specs.Outcomes.{answered_end, answered_reason, cause_end, cause_reason, fault_end, fault_reason};
ghost use Rattle.bg_event_loop.specs.Outcomes.{is_cut_by, refused_end, unanswered_end, unanswered_reason};
ghost use Rattle.bg_forward.specs.Connections.{unanswered};
ghost use Rattle.bg_forward.specs.Reasons.{TellsWhy, reason_status, request_reason};

use bg_both_sides::Given;
use bg_endpoint_side::ForwardFault;
use bg_forward::{End, Reason};
use bg_http::RequestFault;

/// What decided how a request ended.
#[derive(Clone, Copy, Drop)]
pub(crate) enum Cause {
    /// What its client was given for it.
    Given(Given),
    /// It was refused before it was forwarded.
    Refused(Reason),
    /// It is no request.
    Fault(RequestFault),
    /// It is no request, and the response to it, of which its client took a part, was cut off.
    CutByFault(RequestFault),
}

/// How a request ended for its client, and why it was refused. If its response was cut off, its end and its reason are as if the
/// client had taken nothing of the response.
#[derive(Clone, Copy, Drop)]
pub(crate) struct Outcome {
    pub(crate) end: End,
    pub(crate) reason: Option<Reason>,
    /// Whether its response was cut off, of which its client took a part.
    pub(crate) is_cut: bool,
}

impl Outcome {
    /// The outcome of a request whose answer was written as far as its client took it, or could not be written.
    pub(crate) fn of(cause: Cause, is_written: bool) -> Outcome
        ensures end { result.end ≡ cause_end is_written cause }
        ensures reason { result.reason ≡ cause_reason is_written cause }
        ensures cut { result.is_cut ≡ is_cut_by cause }
        ensures why { TellsWhy result.end result.reason }
    {
        match cause {
            Cause::Given(Given::Response(code)) => answered(code, is_written),
            Cause::Given(Given::Refusal(fault)) => refused(reason_of(fault), is_written),
            Cause::Given(Given::Cut(fault)) => cut(refused(reason_of(fault), is_written)),
            Cause::Refused(reason) => refused(reason, is_written),
            Cause::Fault(fault) => faulty(fault, is_written),
            Cause::CutByFault(fault) => cut(faulty(fault, is_written)),
        }
    }

    /// The outcome of a request whose connection ended before an answer was given to it: it was whole or not, and its
    /// client has ended its input or not.
    pub(crate) fn unanswered(was_whole: bool, has_ended: bool) -> Outcome
        ensures end { result.end ≡ unanswered_end was_whole has_ended }
        ensures reason { result.reason ≡ unanswered_reason was_whole }
        ensures cut { result.is_cut ≡ false }
        ensures why { TellsWhy result.end result.reason }
    {
        if was_whole {
            return refused(Reason::ClientGone, false);
        }
        Outcome {
            end: if has_ended {
                End::Closed
            } else {
                End::ReadFailed
            },
            reason: None,
            is_cut: false,
        }
    }
}

/// A response with this code was written, or could not be.
fn answered(code: u16, is_written: bool) -> Outcome
    ensures end { result.end ≡ answered_end is_written code }
    ensures reason { result.reason ≡ answered_reason is_written }
    ensures cut { result.is_cut ≡ false }
    ensures why { TellsWhy result.end result.reason }
{
    if is_written {
        Outcome {
            end: End::Answered(code),
            reason: None,
            is_cut: false,
        }
    } else {
        Outcome {
            end: End::WriteFailed,
            reason: Some(Reason::ClientGone),
            is_cut: false,
        }
    }
}

/// A refusal for this reason was written, or could not be.
fn refused(reason: Reason, is_written: bool) -> Outcome
    ensures end { result.end ≡ refused_end is_written reason }
    ensures reason { result.reason ≡ Some reason }
    ensures cut { result.is_cut ≡ false }
    ensures why { TellsWhy result.end result.reason }
{
    Outcome {
        end: if is_written {
            End::Refused(reason.status())
        } else {
            End::WriteFailed
        },
        reason: Some(reason),
        is_cut: false,
    }
}

/// The same outcome, of a request whose response was cut off.
fn cut(outcome: Outcome) -> Outcome
    ensures end { result.end ≡ outcome.end }
    ensures reason { result.reason ≡ outcome.reason }
    ensures cut { result.is_cut ≡ true }
{
    Outcome {
        end: outcome.end,
        reason: outcome.reason,
        is_cut: true,
    }
}

/// What came is no request: it is refused for a reason, or not answered.
fn faulty(fault: RequestFault, is_written: bool) -> Outcome
    ensures end { result.end ≡ fault_end is_written (request_reason fault) fault }
    ensures reason { result.reason ≡ request_reason fault }
    ensures cut { result.is_cut ≡ false }
    ensures why { TellsWhy result.end result.reason }
{
    match Reason::of_request(fault) {
        Some(reason) => refused(reason, is_written),
        None => unanswered_fault(fault),
    }
}

/// What came is no request, and is not answered.
fn unanswered_fault(fault: RequestFault) -> Outcome
    ensures end { result.end ≡ unanswered fault }
    ensures reason { result.reason ≡ None }
    ensures cut { result.is_cut ≡ false }
    ensures why { TellsWhy result.end result.reason }
{
    Outcome {
        end: match fault {
            RequestFault::Closed => End::Closed,
            RequestFault::ReadFailed => End::ReadFailed,
            _ => End::WriteFailed,
        },
        reason: None,
        is_cut: false,
    }
}

/// Why a client is refused whose request had this fault at its endpoint.
fn reason_of(fault: ForwardFault) -> Reason
    ensures reason { result ≡ fault_reason fault }
    ensures status { reason_status result ≡ fault_status fault }
{
    match fault {
        ForwardFault::ConnectFailed => Reason::ConnectFailed,
        ForwardFault::ConnectTimeout => Reason::ConnectTimeout,
        ForwardFault::ResponseTimeout => Reason::ResponseTimeout,
        ForwardFault::Response(fault) => Reason::of_response(fault),
        ForwardFault::GivenUp => Reason::GivenUp,
        ForwardFault::ClientGone => Reason::ClientGone,
    }
}
