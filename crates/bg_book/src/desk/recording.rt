//! Orders of which a journal gets the entries.
ghost use Rattle.std.specs.Prelude.{◌≡◌, ◌+◌, ◌-◌, ◌≤◌, reverse, take, IfOk};
ghost use Rattle.bg_history_laws.specs.Journaled.{journaled};
ghost use Rattle.bg_rollout.specs.Routing.{Routing};
ghost use Rattle.bg_book.specs.OrderEntries.{outcomes_since_event as outcomes_since};
ghost use Rattle.bg_book.specs.Recording.{RecordsIf};

use super::{Desk, Question, control_if};
use crate::book::Book;
use crate::order_entries::{newest_entries, outcomes_since_event};
use bg_history::Entry;
use bg_ledger::Names;
use bg_rollout::{Control, ControlFault};
use std::alloc::{AllocError, Global};
use std::sync::Wait;

/// What a journal has of a book between two orders: all entries up to the newest event, and this many outcomes after it.
#[derive(Clone, Copy, Debug, Drop)]
pub struct JournalEnd {
    /// The allocator for the copies of entries.
    pub alloc: Global,
    pub known: u64,
}

/// An event that was recorded, as a journal needs it.
#[derive(Debug)]
pub struct Recorded {
    /// The number of its outcomes.
    pub outcomes: u64,
    /// The event and its outcomes, behind the outcomes before it that the journal lacks; the oldest first. An error if
    /// an allocation failed.
    pub entries: Result<Vec<Entry>, AllocError>,
}

impl Drop for Recorded {
    /// Drops the fields by one call, so that the proofs of what owns a value are short (CONTRIBUTING.md, "What a check costs").
    fn drop(self) {
        let Recorded {
            outcomes: _,
            entries: _,
        } = self;
    }
}

impl<N: Names> Desk<N> {
    /// [`Desk::control_if`], and under the same lock copies of the entries that a journal lacks then. If the copies fail
    /// for lack of memory, the event is recorded nevertheless.
    pub fn record_if<Q: Question<bool>, R: Wait>(
        &self,
        rt: &R,
        condition: Q,
        event: &Control,
        end: &JournalEnd,
    ) -> Option<Result<Recorded, ControlFault>>
        ensures told { (b : Routing) × (new : Routing)
            × RecordsIf (Q.gives condition b) end.now.known b event.now result new }
    {
        let mut locked = self.book.lock(rt);
        record_if(&mut *locked, condition, event, end)
    }
}

/// Gives an event to the book as [`control_if`] does, and copies the entries that a journal lacks then.
fn record_if<N: Names, Q: Question<bool>>(
    book: &mut Book<N>,
    condition: Q,
    event: &Control,
    end: &JournalEnd,
) -> Option<Result<Recorded, ControlFault>>
    ensures { RecordsIf (Q.gives condition book.old) end.now.known book.old event.now result book.new }
{
    let lacked = lacked_outcomes(book, end.known);
    match control_if(book, condition, event) {
        Some(Ok(outcomes)) => {
            let entries = newest_entries(end.alloc, book.history(), lacked + outcomes + 1);
            Some(Ok(Recorded { outcomes, entries }))
        }
        Some(Err(fault)) => Some(Err(fault)),
        None => None,
    }
}

/// How many outcomes since the newest event a journal lacks.
fn lacked_outcomes<N: Names>(book: &Book<N>, known: u64) -> u64
    ensures lacked { result ≡ outcomes_since book.now.past - known }
    ensures few { result ≤ 1000000 }
{
    let _few = book.entries_used();
    outcomes_since_event(book.history()).saturating_sub(known)
}
