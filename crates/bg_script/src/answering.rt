//! Answers the lines of a script or of a control connection, one after the other.
ghost use Rattle.std.specs.Prelude.{◌≡◌, ◌&&◌, IfOk, OnOk};
ghost use Rattle.std.specs.Io.KnownBytes.{Keeps};
ghost use Rattle.bg_operator.specs.OperatorLines.{last_speaks_http};
ghost use Rattle.bg_operator.specs.Reading.{Known};
ghost use Rattle.bg_script.specs.LineAnswers.{AnswersLines, LineIsAnswered, LineIsDone, MayEnd, StepIs};
ghost use Rattle.bg_script.specs.LineSteps.{MayFollow, is_connection};

use crate::answer::{Answer, write_answer};
use crate::run_end::RunEnd;
use crate::stages::LineStage;
use bg_operator::{Command, LineFault, MOST_TURNS, OperatorLines};
use bg_revisions::{Name, Ports};
use std::io::{BufRead, Write};

/// The first revision of a book that an `open` asks for.
#[derive(Debug)]
pub struct FirstRevision {
    pub name: Name,
    pub ports: Ports,
}

impl Drop for FirstRevision {
    /// Drops the fields by one call, so that the proofs of what owns a value are short (CONTRIBUTING.md, "What a check costs").
    fn drop(self) {
        let FirstRevision { name: _, ports: _ } = self;
    }
}

/// Why no more lines are answered.
#[derive(Debug, Drop)]
pub enum LinesEnd {
    /// A line is an `open`, and no book is open. It is not answered yet.
    Open(FirstRevision),
    /// The line is `quit`, which is not answered.
    Quit,
    /// The line of a control connection is a fault and a line of HTTP. Its fault was written.
    SpeaksHttp,
    /// There is no further line.
    End,
}

/// What a line leads to.
#[derive(Debug, Drop)]
pub enum LineResult {
    /// This answer, other than the answer to a query.
    Said(Answer),
    /// The answer to a query, such as the report, or that there was no memory for it. It was written.
    Report,
    /// The line is an `open`, and no book is open. It is left to the caller.
    Opens(FirstRevision),
    /// The line is `quit`, which is not answered.
    Quits,
}

/// What comes after a line.
#[derive(Drop)]
pub(crate) enum AfterLine {
    /// The line was answered, and the next one may come.
    GoesOn { is_fault: bool },
    /// No more lines are answered.
    Ends(LinesEnd),
}

/// How lines were answered.
#[derive(Drop)]
pub(crate) struct LinesAnswered {
    /// Why no more are answered.
    pub end: LinesEnd,
    /// Whether a fault was written.
    pub faulted: bool,
}

/// Carries out a line at a stage. The answer to a query is written, and any other answer is not written yet.
fn step<S: LineStage, W: Write>(
    stage: &mut S,
    read: Result<Command, LineFault>,
    writer: &mut W,
) -> Result<LineResult, RunEnd>
    ensures is { IfOk result (StepIs (S.stage stage.old) read (W.contents writer.old)
        (W.contents writer.new) (S.stage stage.new)) }
    ensures next { MayFollow (S.stage stage.old) (S.stage stage.new) }
{
    match read {
        Ok(command) => stage.carry_out(command, writer),
        Err(fault) => Ok(LineResult::Said(Answer::Unread(fault))),
    }
}

/// Carries out a line at a stage, and writes the answer. The answer of a control connection is flushed. An `open` without an
/// open book and a `quit` are left to the caller, and nothing is written. The error is that the write failed.
pub fn answer_line<S: LineStage, W: Write>(
    stage: &mut S,
    read: Result<Command, LineFault>,
    writer: &mut W,
) -> Result<LineResult, RunEnd>
    ensures answered { IfOk result (LineIsAnswered (S.stage stage.old) read
        (W.contents writer.old) (W.contents writer.new) (S.stage stage.new)) }
    ensures next { MayFollow (S.stage stage.old) (S.stage stage.new) }
{
    match step(stage, read, writer)? {
        LineResult::Said(answer) => {
            write_answer(&answer, writer)?;
            flush(stage, writer)?;
            Ok(LineResult::Said(answer))
        }
        LineResult::Report => {
            flush(stage, writer)?;
            Ok(LineResult::Report)
        }
        LineResult::Opens(first) => Ok(LineResult::Opens(first)),
        LineResult::Quits => Ok(LineResult::Quits),
    }
}

/// Answers a line, and tells whether the next one may come.
fn after_line<S: LineStage, W: Write>(
    stage: &mut S,
    read: Result<Command, LineFault>,
    writer: &mut W,
) -> Result<AfterLine, RunEnd>
    ensures done { IfOk result (LineIsDone (S.stage stage.old) read
        (W.contents writer.old) (W.contents writer.new) (S.stage stage.new)) }
    ensures next { MayFollow (S.stage stage.old) (S.stage stage.new) }
{
    match answer_line(stage, read, writer)? {
        LineResult::Said(answer) => Ok(AfterLine::GoesOn {
            is_fault: answer.is_fault(),
        }),
        LineResult::Report => Ok(AfterLine::GoesOn { is_fault: false }),
        LineResult::Opens(first) => Ok(AfterLine::Ends(LinesEnd::Open(first))),
        LineResult::Quits => Ok(AfterLine::Ends(LinesEnd::Quit)),
    }
}

/// Flushes the writer of a control connection, since an operator may wait for the answer.
fn flush<S: LineStage, W: Write>(stage: &S, writer: &mut W) -> Result<(), RunEnd>
    ensures { OnOk result (Keeps (W.contents writer.old) (W.contents writer.new)) }
{
    if stage.is_connection() {
        writer.flush()?;
    }
    Ok(())
}

/// Answers each line from a stage on, up to an `open` without an open book, a `quit`, a line of HTTP at a control
/// connection, or the end.
///
/// If a line of a control connection gives no command and is a request line or a field line of HTTP
/// ([`OperatorLines::speaks_http`]), the answer is its fault, and no line after it is read. A browser sends such lines
/// before the lines of a request's body, which no operator has written. A `RunEnd` comes if a read, a write or the
/// allocation for a line fails, and after 2^24 lines.
pub(crate) fn answer_lines<S: LineStage, B: BufRead, W: Write>(
    stage: &mut S,
    lines: &mut OperatorLines,
    reader: &mut B,
    writer: &mut W,
) -> Result<LinesAnswered, RunEnd>
    ensures answers { IfOk result (λ done. Known (B.remaining reader.old) (B.remaining reader.new)
        (AnswersLines (S.stage stage.old) done.end done.faulted (W.contents writer.old)
        (W.contents writer.new) (S.stage stage.new))) }
    ensures may_end { IfOk result (λ done. MayEnd done.end (S.stage stage.new)) }
    ensures next { MayFollow (S.stage stage.old) (S.stage stage.new) }
{
    let mut faulted = false;
    for _ in 0..MOST_TURNS {
        let Some(read) = lines.next(reader)? else {
            return Ok(LinesAnswered {
                end: LinesEnd::End,
                faulted,
            });
        };
        let is_last = ends_connection(stage, lines);
        match after_line(stage, read, writer)? {
            AfterLine::GoesOn { is_fault } => faulted |= is_fault,
            AfterLine::Ends(end) => return Ok(LinesAnswered { end, faulted }),
        }
        if is_last {
            return Ok(LinesAnswered {
                end: LinesEnd::SpeaksHttp,
                faulted: true,
            });
        }
    }
    Err(RunEnd::ReadFailed)
}

/// Whether the last line is one of HTTP at a control connection, so that no line after it is answered.
fn ends_connection<S: LineStage>(stage: &S, lines: &OperatorLines) -> bool
    ensures { result ≡ (is_connection (S.stage stage.now) && last_speaks_http lines.now) }
{
    stage.is_connection() && lines.speaks_http()
}
