//! The journal of a run, and the numbers of its requests.
ghost use Rattle.std.specs.Prelude.{◌≡◌, OnErr, OnOk};
ghost use Rattle.bg_journal.specs.Bounds.{bound_text as text_of_bound};
ghost use Rattle.bg_script.specs.Journaling.{AppendsBound, journal_state};
ghost use Rattle.bg_script.specs.RequestNumbers.{number_behind};

use crate::desk_journal::DeskJournal;
use crate::order_journal::OrderJournal;
use bg_journal::bound_text;
use std::alloc::{AllocError, Global};

/// The journal of a desk, and the bound behind which the requests of a run get their numbers.
///
/// A book numbers its requests from 1 on. Where a journal goes on over several runs, the number of a request is that of the book
/// behind the last bound that the journal had when the run began. A run appends two bounds: one above all its numbers before
/// its first request, and its last number when it ends. So the next run goes on with the next number, or, after a crash, above
/// the first of the two.
#[derive(Drop)]
pub struct NumberedJournal<J: OrderJournal> {
    pub desk: DeskJournal<J>,
    /// What is added to the number of a request in the book.
    pub offset: u64,
}

impl<J: OrderJournal> NumberedJournal<J> {
    /// Ends the numbers of a run that gave so many, after its last request. The only error is an allocation failure; then the
    /// journal is as it was.
    pub fn end(&mut self, alloc: Global, given: u64) -> Result<(), AllocError>
        ensures offset { self.new.offset ≡ self.old.offset }
        ensures bound { OnOk result (AppendsBound (journal_state J.kept J.doubt self.old.desk)
            (text_of_bound (number_behind self.old.offset given)) (journal_state J.kept J.doubt self.new.desk)) }
        ensures unchanged { OnErr result (self.new ≡ self.old) }
    {
        let bound = bound_text(alloc, self.offset.saturating_add(given))?;
        self.desk.append_bound(bound);
        Ok(())
    }
}
