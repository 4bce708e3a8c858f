//! Opening the database of a journal in a file.
ghost use Rattle.std.specs.Prelude.{◌≡◌, Err, IfErr, IfOk, codes};
ghost use Rattle.sqlite.specs.Files.{file_state};
ghost use Rattle.sqlite.specs.State.{HasCleanDisk};
ghost use Rattle.bg_journal_store.specs.Journal.{IsJournal};
ghost use Rattle.bg_journal_store.specs.declared.fault.JournalFault.TheVariants.{CannotOpen};

use crate::opens_journal::OpensJournal;
use bg_journal_store::{Journal, JournalFault};
use sqlite::{FileFrom, FileStore, Unknown};

/// Opens the database in the file at a path, or makes it if there is none. It supposes that a torn write leaves each byte old or
/// new, so an order is flushed once.
#[derive(Clone, Copy, Drop)]
pub struct FileOpener<'r> {
    pub rt: &'r HostRuntime,
    pub path: &'r str,
}

impl OpensJournal<FileStore<FileFrom<Unknown>>> for FileOpener<'_> {
    ghost fails = { λ opener fault. opener.path.now ≡ codes ":memory:" → fault ≡ CannotOpen };

    fn open(&self) -> Result<Journal<FileStore<FileFrom<Unknown>>>, JournalFault>
        ensures opened { IfOk result (λ journal. HasCleanDisk (file_state journal)
            → IsJournal (file_state journal)) }
        ensures failed { IfErr result (λ fault. self.now.path.now ≡ codes ":memory:" → fault ≡ CannotOpen) }
        ensures memory { self.now.path.now ≡ codes ":memory:" → result ≡ Err CannotOpen }
    {
        Journal::open(self.rt, self.path, Unknown)
    }

    fn empty_log(&self) -> Result<(), JournalFault>
        ensures failed { IfErr result (λ fault. self.now.path.now ≡ codes ":memory:" → fault ≡ CannotOpen) }
        ensures memory { self.now.path.now ≡ codes ":memory:" → result ≡ Err CannotOpen }
    {
        let journal = Journal::open(self.rt, self.path, Unknown)?;
        let _files = journal.close()?;
        Ok(())
    }
}
