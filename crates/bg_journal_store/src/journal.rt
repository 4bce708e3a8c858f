//! A journal that is open.
ghost use Rattle.std.specs.Prelude.{◌≡◌, ◌≢◌, ◌⊎◌, ◌↔◌, ◌≤◌, ◌++◌, [], ◌∷◌, None, codes, map, IfOk, IfErr, OnOk, OnErr, Err, IsTrue, string_bytes};
ghost use Rattle.sqlite_disk.specs.Disk.{MoreFaults};
ghost use Rattle.sqlite_trees.specs.View.{doubt, IsClean, IsShaped};
ghost use Rattle.sqlite_trees.specs.declared.store.Shape.TheVariants as shape;
ghost use Rattle.sqlite_trees.specs.declared.error.StoreError.{StoreError};
ghost use Rattle.sqlite_store.specs.FileStore.{view};
ghost use Rattle.sqlite_wal.specs.Files.{image_at};
ghost use Rattle.sqlite_wal.specs.Reads.{AreClean};
ghost use Rattle.sqlite_catalog.specs.Listing.{IsSound};
ghost use Rattle.sqlite.specs.Held.{state};
ghost use Rattle.sqlite.specs.Closing.{IsCopied};
ghost use Rattle.sqlite.specs.Files.{FailsToClose, IsClosed, file_state};
ghost use Rattle.sqlite.specs.Steps.{over_memory};
ghost use Rattle.sqlite.specs.State.{HasCleanDisk, IsLive, Opens, store_error};
ghost use Rattle.bg_journal_store.specs.declared.fault.JournalFault.TheVariants.{CannotOpen, OtherSchema, OtherVersion, OutOfMemory};
ghost use Rattle.bg_journal_store.specs.Faults.{fault_of as fault_in};
ghost use Rattle.bg_journal_store.specs.Failures.{FailsToAppend, FailsToRead};
ghost use Rattle.bg_journal_store.specs.Schema.{journal_schema, version};
ghost use Rattle.bg_journal_store.specs.Journal.{Appends, ComesFrom, HasTables, HoldsJournal, IsBlank, IsJournal, IsLeft, Keeps, LeavesEither, LeavesJournals, LeavesOnly, OpensFrom, Refuses, settings_in, texts_in};

use crate::fault::{JournalFault, fault_of};
use crate::reading::{SELECT_ENTRIES, SELECT_SETTINGS, read_texts};
use crate::schema::{is_empty, is_journal};
use sqlite::{Alter, Connection, Error, ErrorCode, FileFrom, FileStore, MemStore, Start, params};
use sqlite_disk::{Disk, Files};
use std::alloc::Global;
use std::marker::Model;

const CREATE_ENTRIES: &str =
    "CREATE TABLE entries (number INTEGER PRIMARY KEY, text TEXT NOT NULL) STRICT";

const CREATE_SETTINGS: &str =
    "CREATE TABLE settings (number INTEGER PRIMARY KEY, text TEXT NOT NULL) STRICT";

const INSERT_SETTING: &str = "INSERT INTO settings (text) VALUES (?1)";

const INSERT_ENTRY: &str = "INSERT INTO entries (text) VALUES (?1)";

/// The version of the form of a journal.
const VERSION: &str = "1";

/// The texts of orders, in the order in which they were appended: a row each in a SQLite database.
///
/// A failure of the disk may close the journal. Each later call then fails, mostly with
/// [`Closed`](JournalFault::Closed), and the journal has to be dropped and opened again.
pub struct Journal<S: Alter> {
    conn: Connection<S>,
}

// It is written out, so that a caller does not prove again how a connection is dropped.
impl<S: Alter + Drop> Drop for Journal<S> {
    fn drop(self) {
        let Journal { conn: _ } = self;
    }
}

impl<S: Alter> Model for Journal<S> {
    ghost use Rattle.std.specs.Prelude.{◌≡◌, None};
    ghost use Rattle.sqlite.specs.Held.{Held, held_code, state};
    ghost use Rattle.bg_journal_store.specs.Journal.{HoldsJournal};

    ghost Value = { Held S };

    ghost coded = { held_code S.code };

    ghost view = { λ j. j.conn };

    ghost invariant = { λ j. HoldsJournal (state S.Store j.conn) × (j.conn.step_limit ≡ None) };
}

impl<S: Start> Journal<FileStore<FileFrom<S>>> {
    /// Opens the journal at a path, or makes it where there is no file, or an empty database. `start` stands for what
    /// the files held: `Unknown` supposes that a torn write leaves each byte old or new, and `Wary` does not, for a
    /// second flush at each commit.
    ///
    /// What it opens is a journal, and its texts are those of the journal that the files held, or none. It refuses a
    /// database of another schema ([`OtherSchema`](JournalFault::OtherSchema)) or another version
    /// ([`OtherVersion`](JournalFault::OtherVersion)) and leaves it as it was, one that another process has open
    /// ([`Busy`](JournalFault::Busy)), and one that is damaged as far as the sums of its pages tell. The path `:memory:` is
    /// that of no file ([`CannotOpen`](JournalFault::CannotOpen)).
    pub fn open(
        rt: &HostRuntime,
        path: &str,
        start: S,
    ) -> Result<Journal<FileStore<FileFrom<S>>>, JournalFault>
        ensures opened { IfOk result (λ journal. HasCleanDisk (file_state journal)
            → IsJournal (file_state journal)) }
        ensures found { IfOk result (λ journal. HasCleanDisk (file_state journal)
            → OpensFrom (image_at S.Start) (texts_in (file_state journal).now.trees)) }
        ensures memory { path.now ≡ codes ":memory:" → result ≡ Err CannotOpen }
    {
        match Connection::open_from(rt, path, true, start) {
            Ok(mut conn) => {
                accept(rt.alloc(), &mut conn)?;
                Ok(Journal { conn })
            }
            Err((error, _)) => Err(fault_of(error)),
        }
    }
}

impl<D: Disk + Drop> Journal<FileStore<D>> {
    /// Closes the journal, and moves what its log still has into the database, whose file then has all texts without the log.
    /// Gives the two files, which stay locked until they are dropped. After an error they still have the texts together.
    pub fn close(self) -> Result<Files<D>, JournalFault>
        ensures copied { IfOk result (λ files. AreClean D.Disk files.log files.db → IsCopied self files) }
        ensures named { IfErr result (λ fault. (cause : StoreError) × (fault ≡ fault_in (store_error cause))) }
        ensures failed { IfErr result (λ fault. (last : _) × IsClosed self last × (IsClean (view last)
            → (error : _) × (fault ≡ fault_in error) × FailsToClose self last error)) }
    {
        let Journal { conn } = self;
        match conn.close_files() {
            Ok(files) => Ok(files),
            Err((error, store)) => {
                drop(store.close());
                Err(fault_of(error))
            }
        }
    }
}

impl Journal<MemStore> {
    /// A new journal in memory. The only error is `OutOfMemory`.
    pub fn in_memory(alloc: Global) -> Result<Journal<MemStore>, JournalFault>
        ensures journal { IfOk result (λ journal. IsJournal (state over_memory journal)) }
        ensures empty { IfOk result (λ journal. texts_in (state over_memory journal).now.trees ≡ []) }
        ensures fault { IfErr result (λ fault. fault ≡ OutOfMemory) }
    {
        match Connection::open_in_memory(alloc) {
            Ok(mut conn) => match accept(alloc, &mut conn) {
                Ok(()) => Ok(Journal { conn }),
                Err(_) => Err(JournalFault::OutOfMemory),
            },
            Err(_) => Err(JournalFault::OutOfMemory),
        }
    }
}

/// Takes the database as a journal, and makes the tables if it has none. A database of another schema or version is
/// left as it was.
fn accept<S: Alter>(alloc: Global, conn: &mut Connection<S>) -> Result<(), JournalFault>
    requires opened { HasCleanDisk (state S.Store conn.old) → Opens (state S.Store conn.old) }
    requires ordered { HasCleanDisk (state S.Store conn.old) → IsSound journal_schema (state S.Store conn.old).now.trees
        → IsShaped shape.Table ((state S.Store conn.old).now.trees 0)
        × IsShaped shape.Table ((state S.Store conn.old).now.trees 1) }
    ensures journal { HasCleanDisk (state S.Store conn.new) → OnOk result (IsJournal (state S.Store conn.new)) }
    ensures comes { HasCleanDisk (state S.Store conn.new)
        → OnOk result (ComesFrom (state S.Store conn.old).now.trees (texts_in (state S.Store conn.new).now.trees)) }
    ensures refused { HasCleanDisk (state S.Store conn.new)
        → IfErr result (Refuses (state S.Store conn.old) (state S.Store conn.new)) }
    ensures clean { doubt (state S.Store conn.old).is_clean ≤ doubt (state S.Store conn.new).is_clean }
    ensures limit { (state S.Store conn.new).step_limit ≡ (state S.Store conn.old).step_limit }
{
    if is_journal(conn.schema()) {
        check_version(alloc, conn)
    } else if is_empty(conn.schema()) {
        create(conn)
    } else {
        Err(JournalFault::OtherSchema)
    }
}

/// Refuses a journal of another version.
fn check_version<S: Alter>(alloc: Global, conn: &mut Connection<S>) -> Result<(), JournalFault>
    requires { HasCleanDisk (state S.Store conn.old) → HasTables (state S.Store conn.old) }
    ensures journal { HasCleanDisk (state S.Store conn.new) → OnOk result (IsJournal (state S.Store conn.new)) }
    ensures same { HasCleanDisk (state S.Store conn.new)
        → OnOk result ((state S.Store conn.new).now ≡ (state S.Store conn.old).now) }
    ensures refused { HasCleanDisk (state S.Store conn.new) → IfErr result (λ fault. fault ≡ OtherVersion
        → (settings_in (state S.Store conn.old).now.trees ≢ version ∷ []) × IsLeft (state S.Store conn.old) (state S.Store conn.new)) }
    ensures named { IfErr result (λ fault. fault ≢ OtherSchema) }
    ensures clean { doubt (state S.Store conn.old).is_clean ≤ doubt (state S.Store conn.new).is_clean }
    ensures limit { (state S.Store conn.new).step_limit ≡ (state S.Store conn.old).step_limit }
{
    let texts = read_texts(alloc, conn, SELECT_SETTINGS)?;
    if is_version(&texts) {
        Ok(())
    } else {
        Err(JournalFault::OtherVersion)
    }
}

fn is_version(texts: &[String]) -> bool
    ensures { IsTrue result ↔ (map string_bytes texts.now ≡ version ∷ []) }
{
    match texts {
        [text] => is_version_text(text.as_str()),
        _ => false,
    }
}

fn is_version_text(text: &str) -> bool
    ensures { IsTrue result ↔ (text.now ≡ version) }
{
    text == VERSION
}

fn create<S: Alter>(conn: &mut Connection<S>) -> Result<(), JournalFault>
    requires { HasCleanDisk (state S.Store conn.old) → IsBlank (state S.Store conn.old) }
    ensures journal { HasCleanDisk (state S.Store conn.new) → OnOk result (IsJournal (state S.Store conn.new)) }
    ensures empty { HasCleanDisk (state S.Store conn.new)
        → OnOk result (texts_in (state S.Store conn.new).now.trees ≡ []) }
    ensures named { IfErr result (λ fault. (fault ≢ OtherSchema) × (fault ≢ OtherVersion)) }
    ensures clean { doubt (state S.Store conn.old).is_clean ≤ doubt (state S.Store conn.new).is_clean }
    ensures limit { (state S.Store conn.new).step_limit ≡ (state S.Store conn.old).step_limit }
{
    match create_tables(conn) {
        Ok(()) => Ok(()),
        Err(error) => Err(fault_of(error)),
    }
}

/// Makes the tables and writes the version, as one transaction.
fn create_tables<S: Alter>(conn: &mut Connection<S>) -> Result<(), Error>
    requires { HasCleanDisk (state S.Store conn.old) → IsBlank (state S.Store conn.old) }
    ensures journal { HasCleanDisk (state S.Store conn.new) → OnOk result (IsJournal (state S.Store conn.new)) }
    ensures empty { HasCleanDisk (state S.Store conn.new)
        → OnOk result (texts_in (state S.Store conn.new).now.trees ≡ []) }
    ensures clean { doubt (state S.Store conn.old).is_clean ≤ doubt (state S.Store conn.new).is_clean }
    ensures limit { (state S.Store conn.new).step_limit ≡ (state S.Store conn.old).step_limit }
{
    if !conn.is_autocommit() {
        return Err(Error::SqliteFailure(ErrorCode::TransactionState));
    }
    let mut transaction = conn.transaction();
    transaction.execute(CREATE_ENTRIES, &[])?;
    transaction.execute(CREATE_SETTINGS, &[])?;
    transaction.execute(INSERT_SETTING, params![VERSION])?;
    transaction.commit()
}

fn insert<S: Alter>(conn: &mut Connection<S>, text: &str) -> Result<usize, Error>
    requires { HoldsJournal (state S.Store conn.old) }
    ensures journal { HoldsJournal (state S.Store conn.new) }
    ensures appended { HasCleanDisk (state S.Store conn.new)
        → OnOk result (Appends (state S.Store conn.old) (state S.Store conn.new) text.now) }
    ensures refused { HasCleanDisk (state S.Store conn.new) → IsTrue (state S.Store conn.new).is_open
        → OnErr result (Keeps (state S.Store conn.old) (state S.Store conn.new)) }
    ensures crash { HasCleanDisk (state S.Store conn.new) → IsTrue (state S.Store conn.old).is_open
        → LeavesEither (state S.Store conn.new) (texts_in (state S.Store conn.old).now.trees)
        (texts_in (state S.Store conn.old).now.trees ++ text.now ∷ []) }
    ensures failed { HasCleanDisk (state S.Store conn.new) → (state S.Store conn.old).step_limit ≡ None
        → IfErr result (λ error. FailsToAppend (state S.Store conn.old) (state S.Store conn.new) text.now (fault_in error)) }
    ensures closes { HasCleanDisk (state S.Store conn.new) → IsTrue (state S.Store conn.old).is_open
        → IsTrue (state S.Store conn.new).is_open ⊎ MoreFaults (state S.Store conn.old).faults (state S.Store conn.new).faults }
    ensures sound { HasCleanDisk (state S.Store conn.new) → IsTrue (state S.Store conn.old).is_open
        → LeavesJournals (state S.Store conn.new) }
    ensures clean { doubt (state S.Store conn.old).is_clean ≤ doubt (state S.Store conn.new).is_clean }
    ensures limit { (state S.Store conn.new).step_limit ≡ (state S.Store conn.old).step_limit }
{
    let _schema = conn.schema();
    conn.execute(INSERT_ENTRY, params![text])
}

impl<S: Alter> Journal<S> {
    /// An open database obeys its schema.
    pub(crate) fn obeys_schema(&self)
        ensures { IsLive (state S.Store self.now) }
    {
        let _schema = self.conn.schema();
    }

    /// Appends the text of an order, as a transaction of its own. After `Ok` it is on the disk. After an error it is
    /// not, unless the error has closed the journal: then the next [`open`](Journal::open) tells. Only a failure of
    /// the disk closes it.
    ///
    /// It fails with [`Io`](JournalFault::Io), [`DiskFull`](JournalFault::DiskFull) or
    /// [`Damaged`](JournalFault::Damaged) only if the disk has failed or refused in this call, with
    /// [`Closed`](JournalFault::Closed) only if the journal was closed before, with
    /// [`TooLong`](JournalFault::TooLong) only for a text of at least 999,999,947 bytes or at a closed journal, with
    /// [`Refused`](JournalFault::Refused) only if the last order has the greatest number of an `i64`, and else with
    /// [`OutOfMemory`](JournalFault::OutOfMemory).
    pub fn append(&mut self, text: &str) -> Result<(), JournalFault>
        ensures appended { HasCleanDisk (state S.Store self.new)
            → OnOk result (Appends (state S.Store self.old) (state S.Store self.new) text.now) }
        ensures refused { HasCleanDisk (state S.Store self.new) → IsTrue (state S.Store self.new).is_open
            → OnErr result (Keeps (state S.Store self.old) (state S.Store self.new)) }
        ensures crash { HasCleanDisk (state S.Store self.new) → IsTrue (state S.Store self.old).is_open
            → LeavesEither (state S.Store self.new) (texts_in (state S.Store self.old).now.trees)
            (texts_in (state S.Store self.old).now.trees ++ text.now ∷ []) }
        ensures failed { HasCleanDisk (state S.Store self.new)
            → IfErr result (FailsToAppend (state S.Store self.old) (state S.Store self.new) text.now) }
        ensures closes { HasCleanDisk (state S.Store self.new) → IsTrue (state S.Store self.old).is_open
            → IsTrue (state S.Store self.new).is_open ⊎ MoreFaults (state S.Store self.old).faults (state S.Store self.new).faults }
        ensures sound { HasCleanDisk (state S.Store self.new) → IsTrue (state S.Store self.old).is_open
            → LeavesJournals (state S.Store self.new) }
        ensures clean { doubt (state S.Store self.old).is_clean ≤ doubt (state S.Store self.new).is_clean }
    {
        match insert(&mut self.conn, text) {
            Ok(_) => Ok(()),
            Err(error) => Err(fault_of(error)),
        }
    }

    /// The texts of all orders, in the order in which they were appended. It changes nothing.
    ///
    /// It fails with [`Refused`](JournalFault::Refused) only if the text of an order is no UTF-8, as another program
    /// may write it, with [`TooLong`](JournalFault::TooLong) only at a journal that was closed before, and for memory,
    /// the disk and a closed journal as [`append`](Journal::append) does.
    pub fn read_all(&mut self, alloc: Global) -> Result<Vec<String>, JournalFault>
        ensures texts { HasCleanDisk (state S.Store self.new) → IsTrue (state S.Store self.old).is_open
            → IfOk result (λ texts. map string_bytes texts.items ≡ texts_in (state S.Store self.old).committed.trees) }
        ensures kept { HasCleanDisk (state S.Store self.new) → IsTrue (state S.Store self.new).is_open
            → Keeps (state S.Store self.old) (state S.Store self.new) }
        ensures crash { HasCleanDisk (state S.Store self.new) → IsTrue (state S.Store self.old).is_open
            → LeavesOnly (state S.Store self.new) (texts_in (state S.Store self.old).now.trees) }
        ensures failed { HasCleanDisk (state S.Store self.new)
            → IfErr result (FailsToRead (state S.Store self.old) (state S.Store self.new)) }
        ensures closes { HasCleanDisk (state S.Store self.new) → IsTrue (state S.Store self.old).is_open
            → IsTrue (state S.Store self.new).is_open ⊎ MoreFaults (state S.Store self.old).faults (state S.Store self.new).faults }
        ensures open { HasCleanDisk (state S.Store self.new) → OnOk result (IsTrue (state S.Store self.new).is_open) }
        ensures sound { HasCleanDisk (state S.Store self.new) → IsTrue (state S.Store self.old).is_open
            → LeavesJournals (state S.Store self.new) }
        ensures clean { doubt (state S.Store self.old).is_clean ≤ doubt (state S.Store self.new).is_clean }
    {
        let _schema = self.conn.schema();
        read_texts(alloc, &mut self.conn, SELECT_ENTRIES)
    }
}

#[cfg(test)]
mod tests;
