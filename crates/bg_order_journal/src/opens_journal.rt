//! What opens the database of a journal.
ghost use Rattle.std.specs.Prelude.{IfErr, IfOk};
ghost use Rattle.sqlite.specs.Held.{state};
ghost use Rattle.sqlite.specs.State.{HasCleanDisk};
ghost use Rattle.bg_journal_store.specs.Journal.{IsJournal};
ghost use Rattle.bg_journal_store.specs.declared.fault.JournalFault.{JournalFault as SomeFault};

use bg_journal_store::{Journal, JournalFault};
use sqlite::Alter;

/// Opens the database of a journal, also again after a failure has closed it.
pub trait OpensJournal<S: Alter>: Drop {
    /// By which faults it may fail.
    ghost fails: { Self → SomeFault → Type 0 };

    /// The journal, which is open.
    fn open(&self) -> Result<Journal<S>, JournalFault>
        ensures opened { IfOk result (λ journal. HasCleanDisk (state S.Store journal)
            → IsJournal (state S.Store journal)) }
        ensures failed { IfErr result (fails self.now) };

    /// Opens the database, moves what its log still has into its file, and closes it.
    fn empty_log(&self) -> Result<(), JournalFault>
        ensures { IfErr result (fails self.now) };
}
