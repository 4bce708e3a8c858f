//! Why a journal is not opened, or an order not kept.
ghost use Rattle.std.specs.Prelude.{◌≡◌, ◌≢◌};
ghost use Rattle.bg_journal_store.specs.Faults.{fault_of as fault_in};
ghost use Rattle.bg_journal_store.specs.declared.fault.JournalFault.TheVariants.{OutOfMemory, OtherSchema, OtherVersion};

use sqlite::{Error, ErrorCode};
use std::alloc::AllocFailed;

/// The reason why a journal is not opened, read or written.
#[derive(Clone, Copy, Debug, PartialEq, Eq, Drop, thiserror::Error)]
pub enum JournalFault {
    #[error("out of memory")]
    OutOfMemory,
    /// Another process has the database open.
    #[error("another process has the journal open")]
    Busy,
    /// The path names no file that can be opened or made.
    #[error("the file cannot be opened")]
    CannotOpen,
    /// The file is no SQLite database, or the rows of the database do not obey its schema.
    #[error("the file is no database that obeys its schema")]
    NoDatabase,
    /// A page of the database has another sum than was written, or is malformed.
    #[error("the database is damaged")]
    Damaged,
    /// The database has tables, and they are not those of a journal.
    #[error("the database is no journal")]
    OtherSchema,
    /// The tables are those of a journal, and its version is another one, as that of a later program.
    #[error("the journal has another version")]
    OtherVersion,
    /// A call of the system failed to read or write.
    #[error("the disk failed")]
    Io,
    #[error("the disk is full")]
    DiskFull,
    /// An earlier failure of the disk has closed the database. It can be opened again.
    #[error("an earlier failure has closed the journal")]
    Closed,
    /// A text of about a billion bytes or more.
    #[error("the text is too long")]
    TooLong,
    /// The database refused a statement for another reason.
    #[error("{0}")]
    Refused(Error),
}

/// The fault that an error of the database is.
pub(crate) fn fault_of(error: Error) -> JournalFault
    ensures value { result ≡ fault_in error }
    ensures named { (result ≢ OtherSchema) × (result ≢ OtherVersion) }
{
    let Error::SqliteFailure(code) = error else {
        return JournalFault::Refused(error);
    };
    match code {
        ErrorCode::OutOfMemory => JournalFault::OutOfMemory,
        ErrorCode::DatabaseBusy => JournalFault::Busy,
        ErrorCode::CannotOpen => JournalFault::CannotOpen,
        ErrorCode::NotADatabase => JournalFault::NoDatabase,
        ErrorCode::DatabaseCorrupt => JournalFault::Damaged,
        ErrorCode::SystemIoFailure => JournalFault::Io,
        ErrorCode::DiskFull => JournalFault::DiskFull,
        ErrorCode::Closed => JournalFault::Closed,
        ErrorCode::TooBig => JournalFault::TooLong,
        _ => JournalFault::Refused(error),
    }
}

impl<T: Drop> From<AllocFailed<T>> for JournalFault {
    ghost from_gives = { λ _ fault. fault ≡ OutOfMemory };

    fn from(_refused: AllocFailed<T>) -> JournalFault {
        JournalFault::OutOfMemory
    }
}
