//! The rows of the database of a journal, and what a process remembers of them.
ghost use Rattle.std.specs.Prelude.{◌≡◌, ◌↔◌, ◌∷◌, ◌++◌, [], List, ℕ, true, false, map, IfErr, IfOk, OnOk, string_bytes};
ghost use Rattle.sqlite.specs.Held.{state};
ghost use Rattle.sqlite.specs.State.{HasCleanDisk};
ghost use Rattle.bg_order_journal.specs.Refusals.{FailsBelow, FailsToMove, HasFailed};
ghost use Rattle.bg_order_journal.specs.Ties.{IsTied, IsTiedAs, Ties};

use crate::opens_journal::OpensJournal;
use crate::start_fault::StartFault;
use bg_journal_store::{Journal, JournalFault};
use sqlite::Alter;
use std::alloc::Global;

/// Opens a journal, and reads its rows.
pub(crate) fn open_rows<S: Alter + Drop, O: OpensJournal<S>>(
    alloc: Global,
    opener: &O,
) -> Result<(Journal<S>, Vec<String>), JournalFault>
    ensures tied { IfOk result (λ r. HasCleanDisk (state S.Store r.0)
        → Ties (state S.Store r.0) (map string_bytes r.1.items) []) }
    ensures failed { IfErr result (FailsBelow S.Store (O.fails opener.now)) }
{
    let mut journal = opener.open()?;
    let rows = journal.read_all(alloc)?;
    Ok((journal, rows))
}

/// Closes a journal with these rows, so that the file of its database has them without a log, and opens it again. The error
/// is `Changed` if it has other rows then.
pub(crate) fn reopened<S: Alter + Drop, O: OpensJournal<S>>(
    alloc: Global,
    opener: &O,
    journal: Journal<S>,
    rows: &[String],
) -> Result<Journal<S>, StartFault>
    ensures rows { IfOk result (λ again. HasCleanDisk (state S.Store again)
        → Ties (state S.Store again) (map string_bytes rows.now) []) }
    ensures fault { IfErr result (FailsToMove S.Store (map string_bytes rows.now)) }
{
    // No other connection may have the database open.
    drop(journal);
    opener.empty_log()?;
    let (journal, found) = open_rows(alloc, opener)?;
    if are_same(&found, rows) {
        Ok(journal)
    } else {
        Err(StartFault::Changed)
    }
}

/// Appends a row to a journal that has exactly the rows that are remembered.
pub(crate) fn append_text<S: Alter>(
    journal: &mut Journal<S>,
    text: &str,
) -> Result<(), JournalFault>
    ensures tied { OnOk result ((rows : List (List ℕ))
        → (HasCleanDisk (state S.Store journal.old) → Ties (state S.Store journal.old) rows [])
        → HasCleanDisk (state S.Store journal.new) → Ties (state S.Store journal.new) (rows ++ text.now ∷ []) []) }
    ensures failed { IfErr result (HasFailed S.Store) }
{
    journal.append(text)
}

/// Appends a row, if the journal is open. Returns whether the journal is known to keep it.
pub(crate) fn append_row<S: Alter>(journal: &mut Option<Journal<S>>, text: &str) -> bool
    ensures { (rows : List (List ℕ)) → IsTied S.Store journal.old rows []
        → IsTiedAs S.Store journal.new rows text.now result }
{
    match journal {
        Some(journal) => journal.append(text).is_ok(),
        None => false,
    }
}

/// Opens a journal again after a row was not known to be kept, and appends this row if the journal lacks it. Returns the
/// journal, if it could be opened and has the rows that are remembered, and whether it is known to keep the row.
pub(crate) fn append_again<S: Alter + Drop, O: OpensJournal<S>>(
    alloc: Global,
    opener: &O,
    rows: &[String],
    text: &str,
) -> (Option<Journal<S>>, bool)
    ensures { IsTiedAs S.Store result.0 (map string_bytes rows.now) text.now result.1 }
{
    let Ok((journal, found)) = open_rows(alloc, opener) else {
        return (None, false);
    };
    if are_same(&found, rows) {
        let mut journal = Some(journal);
        let is_kept = append_row(&mut journal, text);
        (journal, is_kept)
    } else if has_one_more(&found, rows, text) {
        (Some(journal), true)
    } else {
        (None, false)
    }
}

/// Whether what was found are these rows and then one with this text.
fn has_one_more(found: &[String], rows: &[String], text: &str) -> bool
    ensures { result ≡ true → map string_bytes found.now ≡ map string_bytes rows.now ++ text.now ∷ [] }
{
    match found.split_last() {
        Some((last, before)) => are_same(before, rows) && is_text(last, text),
        None => false,
    }
}

pub(crate) fn is_text(row: &String, text: &str) -> bool
    ensures { (result ≡ true) ↔ (string_bytes row.now ≡ text.now) }
{
    row.as_str() == text
}

/// Whether the rows have the same texts.
fn are_same(found: &[String], rows: &[String]) -> bool
    ensures { (result ≡ true) ↔ (map string_bytes found.now ≡ map string_bytes rows.now) }
{
    found == rows
}
