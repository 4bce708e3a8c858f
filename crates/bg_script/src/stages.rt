//! The stages at which lines are answered: while no book is open, by a book with its seats, and by a desk.
ghost use Rattle.std.specs.Prelude.{◌≡◌, IfOk, Ok, OnOk, false};
ghost use Rattle.std.specs.Io.KnownBytes.{Appends};
ghost use Rattle.bg_script.specs.LineAnswers.{StepIs};
ghost use Rattle.bg_script.specs.LineSteps.{ConnectionOpen, DeskTells, EventReply, MayFollow, Running, Stage, Written, is_connection, is_fault_written, written_text};
ghost use Rattle.bg_script.specs.Stages.{closed_stage};

use crate::answer::{Answer, write_answer};
use crate::answering::{FirstRevision, LineResult};
use crate::boot_clock::{BootClock, answer_before};
use crate::marks_down::{MarksDown, mark_down};
use crate::queries::write_text;
use crate::run_end::RunEnd;
use bg_book::{Book, Call, Control, ControlFault, Desk, OpenBook, Question, Reply};
use bg_ledger::Names;
use bg_operator::{Command, Query};
use bg_strategy::Strategy;
use std::alloc::Global;
use std::io::Write;
use std::sync::Wait;
use std::sync::atomic::{AtomicU64, Ordering};

/// A stage of a script or of a control connection, which carries out the commands of lines.
pub trait LineStage {
    /// The stage as definitions see it.
    ghost stage: { Self → Stage };

    /// Whether the lines are those of a control connection.
    fn is_connection(&self) -> bool
        ensures { result ≡ is_connection (stage self.now) };

    /// Carries out a command, or says why it is not carried out at this stage. The answer to a query is written, and any
    /// other answer is not written yet. An `open` without an open book and a `quit` are left to the caller. The error is that the write failed.
    fn carry_out<W: Write>(
        &mut self,
        command: Command,
        writer: &mut W,
    ) -> Result<LineResult, RunEnd>
        ensures is { IfOk result (StepIs (stage self.old) (Ok command) (W.contents writer.old)
            (W.contents writer.new) (stage self.new)) }
        ensures next { MayFollow (stage self.old) (stage self.new) };
}

/// The settings with which each `open` of a script opens its book.
#[derive(Drop)]
pub struct ScriptSettings<'a> {
    /// The allocator of the book.
    pub alloc: Global,
    /// The strategy of the rollout.
    pub strategy: &'a Strategy,
    /// The number of seats, 1 to 8. With any other number, each `open` is refused.
    pub seats: u32,
}

/// No book is open.
#[derive(Drop)]
pub enum WithoutBook<'a> {
    /// In a script, whose books have these settings.
    Script(&'a ScriptSettings<'a>),
    /// At a control connection.
    Connection,
}

impl LineStage for WithoutBook<'_> {
    ghost stage = { closed_stage };

    fn is_connection(&self) -> bool {
        match self {
            WithoutBook::Script(_) => false,
            WithoutBook::Connection => true,
        }
    }

    fn carry_out<W: Write>(
        &mut self,
        command: Command,
        _writer: &mut W,
    ) -> Result<LineResult, RunEnd> {
        match command {
            Command::Open { name, ports } => Ok(LineResult::Opens(FirstRevision { name, ports })),
            Command::Enter { .. } | Command::Leave { .. } => match self {
                WithoutBook::Script(_) => Ok(LineResult::Said(Answer::NotOpen)),
                WithoutBook::Connection => Ok(LineResult::Said(Answer::NotHere)),
            },
            Command::Control(_)
            | Command::Before { .. }
            | Command::Down { .. }
            | Command::Ask(_)
            | Command::Compact => Ok(LineResult::Said(Answer::NotOpen)),
            Command::Quit => Ok(LineResult::Quits),
        }
    }
}

/// The book of a script, with its seats.
impl<N: Names> LineStage for OpenBook<N> {
    ghost stage = { λ opened. Running opened.book opened.seats };

    fn is_connection(&self) -> bool {
        false
    }

    fn carry_out<W: Write>(
        &mut self,
        command: Command,
        writer: &mut W,
    ) -> Result<LineResult, RunEnd> {
        let answer = match command {
            Command::Open { .. } => Answer::AlreadyOpen,
            Command::Control(event) => Answer::Made(self.call(&Call::Control(event))),
            Command::Enter { seat, service } => {
                Answer::Made(self.call(&Call::Enter { seat, service }))
            }
            Command::Leave { seat } => Answer::Made(self.call(&Call::Leave { seat })),
            Command::Before { .. } | Command::Down { .. } => Answer::NotHere,
            Command::Compact => Answer::Compacted(self.compact()),
            Command::Ask(query) => {
                write_text(query, self.book(), writer)?;
                return Ok(LineResult::Report);
            }
            Command::Quit => return Ok(LineResult::Quits),
        };
        Ok(LineResult::Said(answer))
    }
}

/// A desk, which answers the lines of control connections.
#[derive(Drop)]
pub struct AtDesk<'a, N: Names, R: Wait, C: BootClock, M: MarksDown> {
    /// The handle that waits for the desk's lock.
    pub rt: &'a R,
    /// The allocator of the answers to queries.
    pub alloc: Global,
    pub desk: &'a Desk<N>,
    /// The clock for the time limits of lines.
    pub clock: &'a C,
    /// The number of events that were refused with `HistoryFull`.
    pub refused_for_room: &'a AtomicU64,
    /// What takes the ports of a line `down`.
    pub receiver: &'a M,
}

impl<N: Names, R: Wait, C: BootClock, M: MarksDown> LineStage for AtDesk<'_, N, R, C, M> {
    ghost stage = { λ at_desk. ConnectionOpen (C.reads at_desk.clock.now) };

    fn is_connection(&self) -> bool {
        true
    }

    fn carry_out<W: Write>(
        &mut self,
        command: Command,
        writer: &mut W,
    ) -> Result<LineResult, RunEnd> {
        let answer = match &command {
            Command::Open { .. } => Answer::AlreadyOpen,
            Command::Control(event) => Answer::Made(event_reply(self.rt, self.desk, event)),
            Command::Before {
                milliseconds,
                event,
            } => answer_before(self.rt, self.desk, self.clock, *milliseconds, event),
            Command::Enter { .. } | Command::Leave { .. } => Answer::NotHere,
            Command::Down { ports } => mark_down(ports.get(), self.receiver),
            Command::Compact => Answer::Compacted(self.desk.compact(self.rt)),
            Command::Ask(query) => {
                tell(self.rt, self.alloc, self.desk, *query, writer)?;
                return Ok(LineResult::Report);
            }
            Command::Quit => return Ok(LineResult::Quits),
        };
        count_if_full(&answer, self.refused_for_room);
        Ok(LineResult::Said(answer))
    }
}

/// Adds 1 to the count, if the answer is that the history is full.
pub(crate) fn count_if_full(answer: &Answer, refused_for_room: &AtomicU64) {
    if let Answer::Made(Reply::ControlRefused(ControlFault::HistoryFull)) = answer {
        refused_for_room.fetch_add(1, Ordering::SeqCst);
    }
}

/// The reply of a desk to an event, after a compaction if its history is full.
fn event_reply<N: Names, R: Wait>(rt: &R, desk: &Desk<N>, event: &Control) -> Reply
    ensures { EventReply event.now result }
{
    match desk.control_with_compaction(rt, event) {
        Ok(outcomes) => Reply::Done(outcomes),
        Err(fault) => Reply::ControlRefused(fault),
    }
}

/// Writes the answer to a query of the book of a desk, or that the allocation for it failed. The error is that the write
/// failed.
pub(crate) fn tell<N: Names, R: Wait, W: Write>(
    rt: &R,
    alloc: Global,
    desk: &Desk<N>,
    query: Query,
    writer: &mut W,
) -> Result<(), RunEnd>
    ensures { OnOk result ((written : Written) × DeskTells query written
        × Appends (W.contents writer.old) (W.contents writer.new) (written_text written)
        × (is_fault_written written ≡ false)) }
{
    match desk.look(rt, QueryText { alloc, query }) {
        Some(text) => Ok(writer.write_all(&text)?),
        None => Ok(write_answer(&Answer::OutOfMemory, writer)?),
    }
}

/// Asks for the text that answers a query; `None` if its allocation fails. It is written after the desk's lock is released.
#[derive(Drop)]
struct QueryText {
    alloc: Global,
    query: Query,
}

impl Question<Option<Vec<u8>>> for QueryText {
    ghost use Rattle.std.specs.Prelude.{IfSome};
    ghost use Rattle.bg_script.specs.QueryTexts.{query_text};

    ghost gives = { λ asked book text. IfSome text (λ bytes. bytes.items ≡ query_text asked.query book) };

    fn ask<N: Names>(self, book: &Book<N>) -> Option<Vec<u8>> {
        let mut text = Vec::new(self.alloc);
        match write_text(self.query, book, &mut text) {
            Ok(()) => Some(text),
            Err(_) => None,
        }
    }
}
