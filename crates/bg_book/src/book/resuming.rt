//! Resuming a book from a journal.
ghost use Rattle.std.specs.Prelude.{IfErr, IfOk};
ghost use Rattle.bg_ledger.specs.Blanks.{AreAllFor};
ghost use Rattle.bg_rollout.specs.Following.{Resumes};
ghost use Rattle.bg_rollout.specs.Openings.{opened_by, IsSeatCount, OpensSeats};
ghost use Rattle.bg_book.specs.Resuming.{ResumeFaultIs};

use crate::book::Book;
use crate::fault::ResumeFault;
use bg_history::Entry;
use bg_ledger::{Blanks, Names, Seat};
use bg_rollout::{Rollout, RolloutOpening, SeatLimit, laws as rollout_laws};
use std::alloc::Global;

impl<N: Names> Book<N> {
    /// Opens a book with up to 2,048 seats as [`Book::open`] does, and resumes it from the entries of a journal, the oldest
    /// first. The book's history is these entries, and then the outcomes that they still allow, each the first allowed
    /// one, until none is allowed; so [`crate::laws::headline`] holds of it. No request is open, and each seat is without
    /// a call.
    ///
    /// The error is that of the opening, or that of the first entry that isn't followed: it is the Enter or the Leave
    /// of a request, or the entries before it don't allow it. `TooManyEntries` comes if a history has no room for the
    /// entries and their outcomes; `OutOfMemory` if an allocation fails. An error drops the blanks.
    pub fn resume(
        alloc: Global,
        opening: &RolloutOpening,
        blanks: Blanks,
        entries: &[Entry],
    ) -> Result<(Book<N>, Vec<Seat<N>>), ResumeFault>
        requires blanks { AreAllFor N.Names blanks }
        requires count { IsSeatCount SeatLimit.Many opening.now N.seats }
        ensures book { IfOk result
            (λ r. Resumes (opened_by opening.now r.1.items) entries.now r.0) }
        ensures seats { IfOk result (λ r. OpensSeats opening.now N.seats r.1.items) }
        ensures fault { IfErr result (ResumeFaultIs opening.now.strategy.now opening.now.name.now
            opening.now.ports.now opening.now.seats opening.now.limits entries.now) }
    {
        rollout_laws::gathers();
        let (mut rollout, handed_out) = Rollout::open(alloc, SeatLimit::Many, opening, blanks)?;
        match rollout.resume(alloc, entries) {
            Ok(()) => Ok((Book { alloc, rollout }, handed_out)),
            Err(fault) => {
                // A seat can't be dropped: it goes back to its record.
                rollout.end(handed_out);
                Err(ResumeFault::Journal(fault))
            }
        }
    }
}
