//! Answers the lines of a control connection.
//!
//! The lines are read and answered like those of a script, but requests enter and leave by the
//! workers, not by lines. Each answer is flushed before the next line is read.
ghost use Rattle.std.specs.Prelude.{IfOk};
ghost use Rattle.bg_operator.specs.Reading.{Known};
ghost use Rattle.bg_script.specs.Connections.{AnswersAtDesk, AnswersAtJournaledDesk, AnswersBeforeOpen, MayEndAtDesk};
ghost use Rattle.bg_script.specs.Journaling.{journal_state};
ghost use Rattle.bg_script.specs.LineSteps.{ConnectionJournaled};

use crate::answering::{LinesEnd, answer_lines};
use crate::boot_clock::BootClock;
use crate::journaled_stage::AtJournaledDesk;
use crate::marks_down::MarksDown;
use crate::order_journal::OrderJournal;
use crate::run_end::RunEnd;
use crate::stages::{AtDesk, WithoutBook};
use bg_ledger::Names;
use bg_operator::OperatorLines;
use std::io::{BufRead, Write};
use std::sync::Wait;

/// Answers each line while no book is open, up to an `open`, which is left to the caller, a `quit`,
/// which is not answered, a line of HTTP, or the end of the connection.
///
/// If a line gives no command and is a request line or a field line of HTTP
/// ([`OperatorLines::speaks_http`]), the answer is its fault, and no line after it is read. A browser
/// sends such lines before the lines of a request's body, which no operator has written. The answer to
/// `enter` and `leave` is `refused NotHere`, to other commands `refused NotOpen`, and to a line that
/// gives no command its fault. A `RunEnd` comes if a read, a write or the allocation for a line fails, and
/// after 2^24 lines.
pub fn answer_before_open<B: BufRead, W: Write>(
    lines: &mut OperatorLines,
    reader: &mut B,
    writer: &mut W,
) -> Result<LinesEnd, RunEnd>
    ensures { IfOk result (λ end. Known (B.remaining reader.old) (B.remaining reader.new)
        (AnswersBeforeOpen end (W.contents writer.old) (W.contents writer.new))) }
{
    let mut stage = WithoutBook::Connection;
    let answered = answer_lines(&mut stage, lines, reader, writer)?;
    Ok(answered.end)
}

/// Answers each line by the book of a desk, up to a `quit`, which is not answered, a line of HTTP, or
/// the end of the connection; an `open` ends nothing, since a book is open.
///
/// If a line gives no command and is a request line or a field line of HTTP, the answer is its fault, and no
/// line after it is read. The answer to an event is that of [`bg_book::Desk::control_with_compaction`]. The answer to a
/// `before` is `refused TooLate` if the clock, which is read under the desk's lock, is not below its time limit; then
/// nothing is recorded. Else it is the answer to its event, which is given under the same lock. The answer to
/// `report` is the report, or `refused OutOfMemory` if the allocation for it fails. The answer to `compact` is the
/// number of entries that were dropped, to `open` `refused AlreadyOpen`, to `enter` and `leave` `refused NotHere`, and
/// to a line that gives no command its fault. The ports of a `down` go to the receiver, and the answer is their number;
/// if one of them is 0 or occurs twice, the answer is `refused BadPorts`, and the receiver is not called; if the
/// receiver fails, the answer is `refused OutOfMemory`. In no case is the desk asked. Nothing is written while the desk
/// is locked. A `RunEnd` comes if a read, a write or the allocation for a line fails, and after 2^24 lines.
///
/// Each event whose answer is `refused HistoryFull` adds 1 to `refused_for_room` of the desk.
pub fn answer_at_desk<N: Names, R: Wait, C: BootClock, M: MarksDown, B: BufRead, W: Write>(
    mut at_desk: AtDesk<N, R, C, M>,
    lines: &mut OperatorLines,
    reader: &mut B,
    writer: &mut W,
) -> Result<LinesEnd, RunEnd>
    ensures may_end { IfOk result MayEndAtDesk }
    ensures answers { IfOk result (λ end. Known (B.remaining reader.old) (B.remaining reader.new)
        (AnswersAtDesk (C.reads at_desk.entry.clock.now) end (W.contents writer.old) (W.contents writer.new))) }
{
    let answered = answer_lines(&mut at_desk, lines, reader, writer)?;
    Ok(answered.end)
}

/// Answers each line as [`answer_at_desk`] does, but appends the entries of each order to the journal before it is answered.
///
/// The answer to an event, also with a time limit, is `ok` only if the journal keeps its entries then, together with those
/// of all earlier orders. It is `unsaved` if the event was carried out, and its entries are not known to be kept. It is
/// `refused JournalFailed`, and nothing is carried out, if an earlier order is still not kept.
pub fn answer_at_journaled_desk<
    N: Names,
    R: Wait,
    C: BootClock,
    M: MarksDown,
    J: OrderJournal,
    B: BufRead,
    W: Write,
>(
    at_desk: &mut AtJournaledDesk<N, R, C, M, J>,
    lines: &mut OperatorLines,
    reader: &mut B,
    writer: &mut W,
) -> Result<LinesEnd, RunEnd>
    ensures may_end { IfOk result MayEndAtDesk }
    ensures answers { IfOk result (λ end. Known (B.remaining reader.old) (B.remaining reader.new)
        (AnswersAtJournaledDesk
        (ConnectionJournaled (C.reads at_desk.old.desk.clock.now) (journal_state J.kept J.doubt at_desk.old.journal))
        end (W.contents writer.old) (W.contents writer.new)
        (ConnectionJournaled (C.reads at_desk.new.desk.clock.now) (journal_state J.kept J.doubt at_desk.new.journal)))) }
{
    let answered = answer_lines(at_desk, lines, reader, writer)?;
    Ok(answered.end)
}
