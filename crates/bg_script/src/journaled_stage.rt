//! The stage of a desk that keeps a journal.
ghost use Rattle.std.specs.Prelude.{◌≡◌, true};
ghost use Rattle.bg_rollout.specs.Routing.{Routing};
ghost use Rattle.bg_script.specs.Journaling.{OrderReply, journal_state};
ghost use Rattle.bg_script.specs.LineSteps.{ConnectionJournaled};

use crate::answer::Answer;
use crate::answering::LineResult;
use crate::boot_clock::{BootClock, IsBelow};
use crate::desk_journal::DeskJournal;
use crate::marks_down::{MarksDown, mark_down};
use crate::order_journal::OrderJournal;
use crate::run_end::RunEnd;
use crate::stages::{AtDesk, LineStage, count_if_full, tell};
use bg_book::{Book, Control, JournalEnd, Question, Reply};
use bg_ledger::Names;
use bg_operator::Command;
use std::io::Write;
use std::sync::Wait;

/// A desk whose orders are answered after their entries were appended to a journal. It answers all other lines as
/// [`AtDesk`] does.
#[derive(Drop)]
pub struct AtJournaledDesk<'a, N: Names, R: Wait, C: BootClock, M: MarksDown, J: OrderJournal> {
    pub desk: AtDesk<'a, N, R, C, M>,
    pub journal: DeskJournal<J>,
}

impl<N: Names, R: Wait, C: BootClock, M: MarksDown, J: OrderJournal> LineStage
    for AtJournaledDesk<'_, N, R, C, M, J> {
    ghost stage = { λ at. ConnectionJournaled (C.reads at.desk.clock.now) (journal_state J.kept J.doubt at.journal) };

    fn is_connection(&self) -> bool {
        true
    }

    fn carry_out<W: Write>(
        &mut self,
        command: Command,
        writer: &mut W,
    ) -> Result<LineResult, RunEnd> {
        let answer = match &command {
            Command::Open { .. } => Answer::AlreadyOpen,
            Command::Control(event) => {
                let answer = order(&self.desk, &mut self.journal, Always, event);
                return Ok(LineResult::Said(answer));
            }
            Command::Before {
                milliseconds,
                event,
            } => {
                let condition = IsBelow {
                    clock: self.desk.clock,
                    milliseconds: *milliseconds,
                };
                let answer = order(&self.desk, &mut self.journal, condition, event);
                return Ok(LineResult::Said(answer));
            }
            Command::Enter { .. } | Command::Leave { .. } => Answer::NotHere,
            Command::Down { ports } => mark_down(ports.get(), self.desk.receiver),
            Command::Compact => Answer::Compacted(self.desk.desk.compact(self.desk.rt)),
            Command::Ask(query) => {
                tell(
                    self.desk.rt,
                    self.desk.alloc,
                    self.desk.desk,
                    *query,
                    writer,
                )?;
                return Ok(LineResult::Report);
            }
            Command::Quit => return Ok(LineResult::Quits),
        };
        Ok(LineResult::Said(answer))
    }
}

/// Gives an event to the book of a desk if the condition holds, and appends its entries to the journal. The answer is
/// `JournalFailed`, and nothing is carried out, if an earlier order could not be saved, and `TooLate` if the condition does
/// not hold.
fn order<N: Names, R: Wait, C: BootClock, M: MarksDown, J: OrderJournal, Q: Question<bool> + Drop>(
    at_desk: &AtDesk<N, R, C, M>,
    journal: &mut DeskJournal<J>,
    condition: Q,
    event: &Control,
) -> Answer
    ensures { OrderReply (Q.gives condition) (journal_state J.kept J.doubt journal.old) event.now result
        (journal_state J.kept J.doubt journal.new) }
{
    if !journal.is_ready() {
        return Answer::JournalFailed;
    }
    let end = JournalEnd {
        alloc: at_desk.alloc,
        known: journal.known,
    };
    match at_desk.desk.record_if(at_desk.rt, condition, event, &end) {
        Some(Ok(recorded)) => journal.save(at_desk.alloc, &recorded),
        Some(Err(fault)) => {
            let answer = Answer::Made(Reply::ControlRefused(fault));
            count_if_full(&answer, at_desk.refused_for_room);
            answer
        }
        None => Answer::TooLate,
    }
}

/// Asks for nothing.
#[derive(Drop)]
struct Always;

impl Question<bool> for Always {
    ghost use Rattle.std.specs.Prelude.{◌≡◌, true};

    ghost gives = { λ _ _ given. given ≡ true };

    fn ask<N: Names>(self, _book: &Book<N>) -> bool {
        true
    }
}
