//! The boot clock, and the events that have a time limit by it.
ghost use Rattle.std.specs.Prelude.{◌≡◌, ℕ, Bool, true};
ghost use Rattle.bg_script.specs.Clocks.{ReadsInTime};
ghost use Rattle.bg_script.specs.LineSteps.{DeskRepliesBefore, Said};

use crate::answer::Answer;
use bg_book::{Book, Control, Desk, Question, Reply};
use bg_ledger::Names;
use std::sync::Wait;

/// A boot clock: it counts since the machine's start, and goes on while the machine is suspended. Nobody can set it.
///
/// The method takes no handle.
pub trait BootClock {
    /// Whether the clock may read this many milliseconds.
    ghost reads: { Self → ℕ → Bool };

    /// The milliseconds since the machine's start, rounded down (clock_gettime(2), `CLOCK_BOOTTIME`). If the clock cannot
    /// be read, `u64::MAX`, so that nothing is carried out.
    fn milliseconds(&self) -> u64
        ensures { reads self.now result ≡ true };
}

/// The answer of a desk to an event with a time limit: `TooLate`, with nothing recorded, if the clock is not below it;
/// else that of [`Desk::control_with_compaction`]. The clock is read under the desk's lock, and the event is given under
/// the same lock.
pub(crate) fn answer_before<N: Names, R: Wait, C: BootClock>(
    rt: &R,
    desk: &Desk<N>,
    clock: &C,
    milliseconds: u64,
    event: &Control,
) -> Answer
    ensures { DeskRepliesBefore (C.reads clock.now) milliseconds event.now (Said result) }
{
    let condition = IsBelow {
        clock,
        milliseconds,
    };
    match desk.control_if(rt, condition, event) {
        Some(Ok(outcomes)) => Answer::Made(Reply::Done(outcomes)),
        Some(Err(fault)) => Answer::Made(Reply::ControlRefused(fault)),
        None => Answer::TooLate,
    }
}

/// Asks whether a clock is below a time limit. The book has no part in the answer.
#[derive(Drop)]
pub(crate) struct IsBelow<'a, C: BootClock> {
    pub(crate) clock: &'a C,
    pub(crate) milliseconds: u64,
}

impl<C: BootClock> Question<bool> for IsBelow<'_, C> {
    ghost use Rattle.bg_script.specs.Clocks.{ReadsInTime};

    ghost gives = { λ asked _ in_time. ReadsInTime (C.reads asked.clock.now) asked.milliseconds in_time };

    fn ask<N: Names>(self, _book: &Book<N>) -> bool {
        self.clock.milliseconds() < self.milliseconds
    }
}
