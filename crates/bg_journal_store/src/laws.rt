//! Laws of a journal. Each stands on a function that does nothing.
ghost use Rattle.bg_journal_store.specs.Journal.{SurvivesCrash, SurvivesFailure};

use crate::journal::Journal;
use sqlite::FileStore;
use sqlite_disk::Disk;

/// Whatever a crash leaves while the journal is open, the texts that the next open takes from it are those of the
/// journal. It asks that the store numbers its tables as the schema lists them, which no clause of the kit says of a
/// connection.
pub fn survives_crash<D: Disk + Drop>(journal: &Journal<FileStore<D>>)
    ensures { SurvivesCrash journal.now }
{
    journal.obeys_schema();
}

/// Whatever a crash leaves after an [`append`](Journal::append) that failed, and maybe closed the journal, the texts that the
/// next open takes from it are those before this call, or those with its text. It asks the same of the store as
/// [`survives_crash`].
pub fn survives_failure<D: Disk + Drop>(journal: &Journal<FileStore<D>>)
    ensures { SurvivesFailure journal.now }
{
    journal.obeys_schema();
}
