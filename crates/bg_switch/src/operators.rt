//! The lines of operators, answered one after the other.
ghost use Rattle.std.specs.Prelude.{◌≡◌};
ghost use Rattle.bg_switch.specs.Decisions.{is_decision, is_order, makes_decision};
ghost use Rattle.bg_switch.specs.OperatorLines.{IsReadFor};
ghost use Rattle.bg_switch.specs.Rollbacks.{ends_attempt, is_rollback, is_unsuccessful};

use crate::context::ServeContext;
use crate::kernel_clock::KernelClock;
use crate::revision_ports::{DownPorts, update_directory};
use bg_book::{Control, Desk};
use bg_control_port::{AfterReply, Asked, Asker, ControlPort, ReadsLines, Reply, WholeLine};
use bg_history::AnalysisResult;
use bg_ledger::Names;
use bg_operator::{Command, Line, LineFault};
use bg_ports::Notices;
use bg_script::{
    Answer, AtDesk, AtJournaledDesk, LineResult, LineStage, NumberedJournal, OrderJournal, RunEnd,
    WithoutBook, answer_line, write_answer,
};
use std::alloc::{AllocError, Global};
use std::sync::Wait;
use std::time::Clock;

/// What has to be known of a line while it is answered.
#[derive(Drop)]
struct LineNotes {
    /// Whose line it is.
    asker: Asker,
    /// The line, without its line end.
    text: Vec<u8>,
    /// Whether it opens the book, changes the rollout by a decision, or ends the program.
    makes_decision: bool,
    /// Whether it gives an event to the book.
    is_order: bool,
    /// What comes after its reply.
    after: AfterReply,
}

/// Answers the lines of operators.
#[derive(Drop)]
pub struct Operator<'c, R: Clock + Wait> {
    rt: &'c R,
    notices: &'c Notices<'c>,
    reader: LineReader,
    /// The reply to the line that is being answered.
    reply: Vec<u8>,
    /// The line that is being answered.
    asked: Option<LineNotes>,
}

impl<'c, R: Clock + Wait> Operator<'c, R> {
    /// Allocates nothing; the memory for lines and replies is allocated when they come.
    pub fn new(rt: &'c R, alloc: Global, notices: &'c Notices<'c>) -> Operator<'c, R> {
        Operator {
            rt,
            notices,
            reader: LineReader { alloc },
            reply: Vec::new(alloc),
            asked: None,
        }
    }

    /// Waits for the next line of any operator.
    fn next(&mut self, control: &ControlPort<Line>) -> Result<Command, LineFault> {
        let Asked { asker, line } = control.next(self.rt, self.notices, &self.reader);
        let Line {
            text,
            read,
            speaks_http,
        } = line;
        self.asked = Some(LineNotes {
            asker,
            text,
            makes_decision: makes_decision(&read),
            is_order: is_order(&read),
            after: if speaks_http {
                AfterReply::Closes
            } else {
                AfterReply::GoesOn
            },
        });
        read
    }

    /// Waits for the next line, and answers it at a stage. The reply is made, and not given yet.
    fn answer_next<S: LineStage>(
        &mut self,
        control: &ControlPort<Line>,
        stage: &mut S,
    ) -> Result<LineResult, RunEnd> {
        let read = self.next(control);
        self.reply.clear();
        answer_line(stage, read, &mut self.reply)
    }

    /// Answers the next line while no book is open. An `open` is left to the caller.
    pub fn before_open(&mut self, control: &ControlPort<Line>) -> Result<LineResult, RunEnd> {
        let result = self.answer_next(control, &mut WithoutBook::Connection);
        self.finish(control, &result);
        result
    }

    /// Gives the reply that was made to the line. The connection of a line that could not be answered is closed.
    fn finish(&mut self, control: &ControlPort<Line>, done: &Result<LineResult, RunEnd>) {
        match done {
            Ok(LineResult::Said(answer)) => self.deliver(control, Some(*answer)),
            Ok(LineResult::Report) => self.deliver(control, None),
            Ok(LineResult::Opens(_)) => {}
            Ok(LineResult::Quits) => self.note_decision(),
            Err(_) => self.end(control),
        }
    }

    /// Answers the `open` that was the last line. Does nothing if there was none, since a journal opened the book.
    pub fn answer_open(&mut self, control: &ControlPort<Line>, answer: &Answer) {
        self.reply.clear();
        match write_answer(answer, &mut self.reply) {
            Ok(()) => self.deliver(control, Some(*answer)),
            Err(_) => self.end(control),
        }
    }

    /// Gives the reply to the connection whose line it answers. Writes a notice of the line if it was carried out, and one of
    /// the journal if it lacks an order. A report has no answer.
    fn deliver(&mut self, control: &ControlPort<Line>, answer: Option<Answer>) {
        if let Some(answer) = answer {
            if answer.was_carried_out() {
                self.note_decision();
            }
            self.note_journal(answer);
        }
        if let Some(asked) = self.asked.take() {
            let reply = Reply {
                bytes: self.reply.as_slice(),
                after: asked.after,
            };
            control.reply(self.rt, asked.asker, reply, &self.reader);
        }
    }

    /// Notes whether the journal lacks an order, as far as the answer tells.
    fn note_journal(&self, answer: Answer) {
        if answer.lacks_order() {
            self.notices.note_journal(true);
        } else if self.notices.lacks_order() && self.gave_order() && answer.was_carried_out() {
            self.notices.note_journal(false);
        }
    }

    /// Whether the line that is being answered gives an event to the book.
    fn gave_order(&self) -> bool {
        self.asked.as_ref().is_some_and(|asked| asked.is_order)
    }

    /// Writes a notice of the line, if it makes a decision and came of a listed user or by the control socket.
    fn note_decision(&self) {
        if let Some(asked) = &self.asked
            && asked.makes_decision
        {
            self.notices.write_decision(asked.asker.peer(), &asked.text);
        }
    }

    /// Closes the connection whose line could not be answered.
    fn end(&mut self, control: &ControlPort<Line>) {
        if let Some(asked) = self.asked.take() {
            control.end(self.rt, asked.asker);
        }
    }
}

/// Whether a line opens the book, changes the rollout by a decision, also with `before` in front, or ends the program.
fn makes_decision(read: &Result<Command, LineFault>) -> bool
    ensures { result ≡ makes_decision read.now }
{
    match read {
        Ok(command) => match command {
            Command::Control(event) | Command::Before { event, .. } => is_decision(event),
            Command::Open { .. } | Command::Quit => true,
            _ => false,
        },
        Err(_) => false,
    }
}

/// Whether a line gives an event to the book, also with `before` in front.
fn is_order(read: &Result<Command, LineFault>) -> bool
    ensures { result ≡ is_order read.now }
{
    matches!(read, Ok(Command::Control(_) | Command::Before { .. }))
}

/// Whether an event is one that somebody decides: each but a moment and a number of available endpoints.
fn is_decision(event: &Control) -> bool
    ensures { result ≡ is_decision event.now }
{
    !matches!(event, Control::Tick(_) | Control::Available { .. })
}

/// Reads the lines of operators. Those go before all others that end an attempt, by which services select the stable
/// revision again. They also do with `before` in front.
#[derive(Drop)]
struct LineReader {
    alloc: Global,
}

impl ReadsLines<Line> for LineReader {
    ghost reads = { λ _ whole line. IsReadFor whole line };

    ghost puts_first = { λ _ line. ends_attempt line.read };

    fn read(&self, line: WholeLine<'_>) -> Result<Line, AllocError> {
        match line {
            WholeLine::Bytes(bytes) => Line::new(self.alloc, bytes),
            WholeLine::TooLong => Ok(Line::too_long(self.alloc)),
        }
    }

    fn is_urgent(&self, line: &Line) -> bool {
        ends_attempt(&line.read)
    }
}

/// Whether a line is an `abort`, or a failed or erroneous verdict, also with `before` in front.
fn ends_attempt(read: &Result<Command, LineFault>) -> bool
    ensures { result ≡ ends_attempt read.now }
{
    match read {
        Ok(command) => match command {
            Command::Control(event) | Command::Before { event, .. } => is_rollback(event),
            _ => false,
        },
        Err(_) => false,
    }
}

/// Whether an event is an abort, or a failed or erroneous verdict.
fn is_rollback(event: &Control) -> bool
    ensures { result ≡ is_rollback event.now }
{
    match event {
        Control::Abort => true,
        Control::Verdict {
            result: verdict,
            ..
        } => is_unsuccessful(*verdict),
        _ => false,
    }
}

fn is_unsuccessful(verdict: AnalysisResult) -> bool
    ensures { result ≡ is_unsuccessful verdict }
{
    match verdict {
        AnalysisResult::Successful => false,
        AnalysisResult::Failed | AnalysisResult::Error => true,
    }
}

/// Answers the `open` that opened the book, and then the lines of all operators, up to `quit`. If there is a journal, it
/// keeps each order before its reply is given.
pub fn answer_operators<'a, N: Names, R: Clock + Wait, J: OrderJournal>(
    context: &ServeContext<'a, R>,
    desk: &Desk<N>,
    operator: &mut Operator<R>,
    journal: &mut Option<NumberedJournal<J>>,
) {
    let down = DownPorts {
        rt: context.rt,
        alloc: context.alloc,
        directory: context.directory,
    };
    let clock = KernelClock;
    let mut at_desk = AtDesk {
        rt: context.rt,
        alloc: context.alloc,
        desk,
        clock: &clock,
        refused_for_room: context.notices.refused_lines(),
        receiver: &down,
    };
    match journal.take() {
        Some(
            NumberedJournal {
                desk: desk_journal,
                offset,
            },
        ) => {
            let mut at_desk = AtJournaledDesk {
                desk: at_desk,
                journal: desk_journal,
            };
            answer_up_to_quit(context, desk, operator, &mut at_desk);
            let AtJournaledDesk {
                desk: _,
                journal: desk_journal,
            } = at_desk;
            *journal = Some(NumberedJournal {
                desk: desk_journal,
                offset,
            });
        }
        None => answer_up_to_quit(context, desk, operator, &mut at_desk),
    }
}

/// Answers the `open` that opened the book, and then the lines of all operators, up to `quit`. The directory, if
/// there is one, gets the ports of the revisions that are in use after each line, before its reply is given.
fn answer_up_to_quit<'a, N: Names, R: Clock + Wait, S: LineStage>(
    context: &ServeContext<'a, R>,
    desk: &Desk<N>,
    operator: &mut Operator<R>,
    at_desk: &mut S,
) {
    let control = &context.ports.control;
    context.notices.note_open();
    update_directory(context, desk);
    operator.answer_open(control, &Answer::Opened);
    for _ in context.rt.forever() {
        context.notices.note_entries(desk.entries_used(context.rt));
        let result = operator.answer_next(control, at_desk);
        update_directory(context, desk);
        operator.finish(control, &result);
        if let Ok(LineResult::Quits) = result {
            return;
        }
    }
}
