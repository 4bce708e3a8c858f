//! Reading the texts of a table.
ghost use Rattle.std.specs.Prelude.{◌≡◌, ◌≢◌, ◌⊎◌, [], map, IfOk, IfErr, string_bytes};
ghost use Rattle.sqlite.specs.Held.{state};
ghost use Rattle.bg_journal_store.specs.Faults.{fault_of as fault_in};
ghost use Rattle.bg_journal_store.specs.Failures.{FailsToShowTexts, HidesText};
ghost use Rattle.sqlite.specs.State.{CommitsShowing, FailsToQuery, HasCleanDisk, Shown, Survives};
ghost use Rattle.bg_journal_store.specs.declared.fault.JournalFault.TheVariants.{OutOfMemory, OtherSchema, OtherVersion};
ghost use Rattle.bg_journal_store.specs.Journal.{shown_text};

use crate::fault::{JournalFault, fault_of};
use sqlite::{Alter, Connection, Row};
use std::alloc::Global;

pub(crate) const SELECT_ENTRIES: &str = "SELECT text FROM entries ORDER BY number";

pub(crate) const SELECT_SETTINGS: &str = "SELECT text FROM settings ORDER BY number";

/// The texts that a query of one column gives.
pub(crate) fn read_texts<S: Alter>(
    alloc: Global,
    conn: &mut Connection<S>,
    sql: &str,
) -> Result<Vec<String>, JournalFault>
    ensures texts { HasCleanDisk (state S.Store conn.new) → IfOk result (λ texts. (rows : _)
        × Shown sql.now [] (state S.Store conn.old) (state S.Store conn.new) rows
        × (map string_bytes texts.items ≡ map shown_text rows)) }
    ensures left { HasCleanDisk (state S.Store conn.new)
        → ((rows : _) × Shown sql.now [] (state S.Store conn.old) (state S.Store conn.new) rows)
        ⊎ ((error : _) × FailsToQuery sql.now [] (state S.Store conn.old) (state S.Store conn.new) error) }
    ensures survives { Survives (state S.Store conn.old) (state S.Store conn.new)
        (CommitsShowing sql.now [] (state S.Store conn.old)) }
    ensures failed { HasCleanDisk (state S.Store conn.new) → IfErr result (λ fault.
        ((error : _) × FailsToQuery sql.now [] (state S.Store conn.old) (state S.Store conn.new) error × (fault ≡ fault_in error))
        ⊎ ((rows : _) × Shown sql.now [] (state S.Store conn.old) (state S.Store conn.new) rows × FailsToShowTexts rows fault)) }
    ensures named { IfErr result (λ fault. (fault ≢ OtherSchema) × (fault ≢ OtherVersion)) }
{
    match conn.query_all(sql, &[]) {
        Ok(rows) => texts_of(alloc, &rows),
        Err(error) => Err(fault_of(error)),
    }
}

fn texts_of(alloc: Global, rows: &[Row]) -> Result<Vec<String>, JournalFault>
    ensures texts { IfOk result (λ texts. map string_bytes texts.items ≡ map shown_text rows.now) }
    ensures failed { IfErr result (FailsToShowTexts rows.now) }
    ensures named { IfErr result (λ fault. (fault ≢ OtherSchema) × (fault ≢ OtherVersion)) }
{
    let mut texts = Vec::new(alloc);
    for row in rows {
        let text = text_of(row)?;
        texts.push(text)?;
    }
    Ok(texts)
}

fn text_of(row: &Row) -> Result<String, JournalFault>
    ensures text { IfOk result (λ text. string_bytes text ≡ shown_text row.now) }
    ensures failed { IfErr result (λ fault. (fault ≡ OutOfMemory) ⊎ HidesText row.now fault) }
    ensures named { IfErr result (λ fault. (fault ≢ OtherSchema) × (fault ≢ OtherVersion)) }
{
    match row.get(0) {
        Ok(text) => Ok(text),
        Err(error) => Err(fault_of(error)),
    }
}
