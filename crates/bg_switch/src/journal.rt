//! The journal of `serve`: the book that is resumed from it, its begin, and what is told of it.
ghost use Rattle.std.specs.Prelude.{◌≡◌, ◌≤◌, ◌∷◌, [], is_some, true, IfErr, IfOk, IfSome};
ghost use Rattle.std.specs.Option.{option_map_or};
ghost use Rattle.bg_book.specs.Resuming.{ResumeFaultIs};
ghost use Rattle.bg_ledger.specs.Blanks.{AreAllFor};
ghost use Rattle.bg_order_journal.specs.FirstRow.{first_row};
ghost use Rattle.bg_order_journal.specs.Starts.{GoesOn};
ghost use Rattle.bg_rollout.specs.Changes.{NewSeats};
ghost use Rattle.bg_rollout.specs.Gathering.{are_all};
ghost use Rattle.bg_rollout.specs.Refusals.{usual_limits};
ghost use Rattle.bg_strategy_text.specs.Texts.{strategy_text};
ghost use Rattle.bg_switch.specs.Resumed.{IsResumed};

use crate::context::{JournaledContext, ServeContext};
use crate::serve::written;
use bg_book::{Book, Limits, ResumeFault, RolloutOpening};
use bg_ledger::{Blanks, Names, Seat};
use bg_order_journal::{
    OpensJournal, Resumption, StartFault, StoredOrders, begin_numbered, recorded_strategy,
    settings_of,
};
use bg_ports::{Notices, Resumed};
use bg_script::{FirstRevision, NumberedJournal, OrderJournal, RunEnd};
use bg_strategy::Strategy;
use sqlite::Alter;
use std::alloc::Global;
use std::io::Write;
use thiserror::Error;

/// Why a switch is not started with its journal. The file is as it was.
#[derive(Clone, Copy, Debug, PartialEq, Eq, Drop, Error)]
pub enum JournalRefusal {
    /// The journal cannot be read.
    #[error("{0}")]
    Start(StartFault),
    /// No book can be resumed from its entries.
    #[error("{0}")]
    Resume(ResumeFault),
    /// It has no first revision yet.
    #[error("no book was opened with it yet")]
    NotBegun,
}

impl From<StartFault> for JournalRefusal {
    fn from(fault: StartFault) -> JournalRefusal {
        JournalRefusal::Start(fault)
    }
}

impl From<ResumeFault> for JournalRefusal {
    fn from(fault: ResumeFault) -> JournalRefusal {
        JournalRefusal::Resume(fault)
    }
}

/// The book with this number of seats that is resumed from a journal, and its seats.
pub fn resumed_book<N: Names, S: Alter, O: OpensJournal<S>>(
    alloc: Global,
    strategy: &Strategy,
    seats: u32,
    blanks: Blanks,
    resumption: &Resumption<S, O>,
) -> Result<(Book<N>, Vec<Seat<N>>), ResumeFault>
    requires blanks { AreAllFor N.Names blanks }
    requires seats { 1 ≤ seats → seats ≤ 2048 → N.seats ≡ seats }
    ensures book { IfOk result (λ r. IsResumed strategy.now resumption.now.first seats
        resumption.now.entries.items r.1.items r.0) }
    ensures seats { IfOk result (λ r. NewSeats seats r.1.items) }
    ensures all { IfOk result (λ r. are_all N.seats r.1.items ≡ true) }
    ensures fault { IfErr result (ResumeFaultIs strategy.now resumption.now.first.name
        resumption.now.first.ports seats usual_limits resumption.now.entries.items) }
{
    let opening = RolloutOpening {
        strategy,
        name: resumption.first.name.get(),
        ports: resumption.first.ports.get(),
        seats,
        limits: Limits::usual(),
    };
    Book::resume(alloc, &opening, blanks, &resumption.entries)
}

/// Begins the journal of a book that was just opened with this revision; `None` without a journal. The numbers of its requests
/// begin at 1. A notice tells why it cannot be begun.
pub fn begun_journal<R, S: Alter + Drop, O: OpensJournal<S> + Copy>(
    context: &JournaledContext<R, O>,
    first: &FirstRevision,
) -> Result<Option<NumberedJournal<StoredOrders<S, O>>>, StartFault>
    ensures given { IfOk result (λ begun. is_some begun ≡ is_some context.now.journal) }
    ensures state { IfOk result (λ begun. IfSome begun
        (GoesOn (first_row (strategy_text context.now.serve.now.strategy.now) first.now.name first.now.ports ∷ []) 0 0)) }
{
    let Some(opener) = context.journal else {
        return Ok(None);
    };
    let serve = context.serve;
    match begin_numbered(serve.alloc, opener, serve.strategy, first) {
        Ok(journal) => Ok(Some(journal)),
        Err(fault) => {
            note_refused(serve.alloc, serve.notices, &fault);
            Err(fault)
        }
    }
}

/// Ends the numbers of the requests of a run, which gave so many, if there is a journal. If memory is short, the next run goes
/// on as after a crash.
pub fn end_numbers<J: OrderJournal>(
    alloc: Global,
    journal: &mut Option<NumberedJournal<J>>,
    given: u64,
) {
    if let Some(journal) = journal {
        let _ = journal.end(alloc, given);
    }
}

/// The offset of the numbers of requests: 0 without a journal.
pub fn number_offset<J: OrderJournal>(journal: &Option<NumberedJournal<J>>) -> u64
    ensures { result ≡ option_map_or (λ numbered. numbered.offset) journal.now 0 }
{
    match journal {
        Some(journal) => journal.offset,
        None => 0,
    }
}

/// Writes the notice that the journal cannot be begun.
fn note_refused(alloc: Global, notices: &Notices, fault: &StartFault) {
    match format!(in alloc; "{fault}") {
        Ok(reason) => notices.write_journal_refused(reason.as_str()),
        Err(_) => notices.write_journal_refused("out of memory"),
    }
}

/// Writes the notice of what was resumed: this book, from this number of orders.
pub fn note_resumed<N: Names>(notices: &Notices, book: &Book<N>, orders: usize) {
    notices.write_resumed(Resumed {
        orders,
        revisions: book.count(),
        phase: book.phase().name(),
        moment: book.moment(),
    });
}

/// Writes a notice of each setting by which the strategy that a journal names, if it names one, differs from that of the run.
pub fn note_other_settings<R, S: Alter + Drop, O: OpensJournal<S>>(
    context: &ServeContext<R>,
    opener: &O,
) {
    let Ok(Some(kept)) = recorded_strategy(context.alloc, opener) else {
        return;
    };
    let Ok(kept) = settings_of(context.alloc, &kept) else {
        return;
    };
    let Ok(given) = settings_of(context.alloc, context.strategy) else {
        return;
    };
    for (kept, given) in kept.lines().zip(given.lines()) {
        if kept != given {
            context.notices.write_other_setting(kept, given);
        }
    }
}

/// Writes why the journal in the file at a path cannot be used. Returns the exit status.
pub fn write_refusal<W: Write, E: Write>(
    path: &str,
    refusal: &JournalRefusal,
    output: &mut W,
    errors: &mut E,
) -> Result<u8, RunEnd> {
    let _ = writeln!(
        errors,
        "bg_switch: the journal {path} can't be used: {refusal}"
    );
    write_journal_fault(output)
}

/// Writes that a journal cannot be used. Returns the exit status.
pub fn write_journal_fault<W: Write>(output: &mut W) -> Result<u8, RunEnd> {
    written(writeln!(output, "fault Journal"))?;
    Ok(1)
}
