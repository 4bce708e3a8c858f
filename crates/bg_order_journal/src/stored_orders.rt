//! The orders that a database keeps.
ghost use Rattle.std.specs.Prelude.{IfErr, IfOk, OnErr, OnOk, ◌≡◌, ◌≢◌, ◌∷◌, ◌++◌, ◌+◌, ◌≤◌, [], drop, true, false, length, map, string_bytes, vec_capacity, vec_len};
ghost use Rattle.sqlite.specs.Held.{state};
ghost use Rattle.sqlite.specs.State.{HasCleanDisk};
ghost use Rattle.bg_order_journal.specs.Refusals.{FailsToMove};
ghost use Rattle.bg_order_journal.specs.Starts.{IsKeptOrInDoubt, run_bound};
ghost use Rattle.bg_order_journal.specs.Ties.{IsTied, MayFind, Ties, doubt_in};

use crate::opens_journal::OpensJournal;
use crate::rows::{append_again, append_row, reopened};
use crate::start_fault::StartFault;
use bg_journal::bound_text;
use bg_journal_store::{Journal, JournalFault};
use bg_script::OrderJournal;
use sqlite::Alter;
use std::alloc::{AllocError, Global};
use std::marker::Model;

/// More requests than a run gives numbers: 10,000 a second for three years.
const NUMBERS_OF_RUN: u64 = 1_000_000_000_000;

/// The orders in the database of a journal.
///
/// Definitions see the database, if it is open or was just closed by a failure, its rows, and the text of the order in
/// doubt, if there is one. The rows are remembered, so that the journal can be compared with them when it is opened again
/// after a failure: about 60 bytes of memory an order, beside its text.
pub struct StoredOrders<S: Alter, O: OpensJournal<S>> {
    alloc: Global,
    opener: O,
    journal: Option<Journal<S>>,
    rows: Vec<String>,
    doubt: Option<String>,
}

// It is written out, so that a caller does not prove again how a journal is dropped.
impl<S: Alter + Drop, O: OpensJournal<S>> Drop for StoredOrders<S, O> {
    fn drop(self) {
        let StoredOrders {
            alloc: _,
            opener: _,
            journal: _,
            rows: _,
            doubt: _,
        } = self;
    }
}

impl<S: Alter, O: OpensJournal<S>> Model for StoredOrders<S, O> {
    ghost use Rattle.std.specs.Prelude.{◌≤◌, List, ℕ, Option, map, length, string_bytes};
    ghost use Rattle.std.specs.Coded.{coded_list, coded_option, coded_ℕ, coded×};
    ghost use Rattle.sqlite.specs.Held.{Held, held_code};

    ghost Value = { Option (Held S) × (List (List ℕ) × List (List ℕ)) };

    ghost coded = { coded× (coded_option (held_code S.code)) (coded× (coded_list (coded_list coded_ℕ)) (coded_list (coded_list coded_ℕ))) };

    ghost use Rattle.bg_order_journal.specs.Ties.{IsTied, doubt_in};

    ghost view = { λ o. (o.journal, (map string_bytes o.rows.items, doubt_in o.doubt)) };

    ghost invariant = { λ o. (1 ≤ length o.rows.items)
        × IsTied S.Store o.journal (map string_bytes o.rows.items) (doubt_in o.doubt) };
}

impl<S: Alter, O: OpensJournal<S>> StoredOrders<S, O> {
    /// The orders of a journal that is open and has these rows, of which there is at least the first one.
    pub(crate) fn opened(
        alloc: Global,
        opener: O,
        journal: Journal<S>,
        rows: Vec<String>,
    ) -> StoredOrders<S, O>
        requires some { 1 ≤ length rows.items }
        requires tied { HasCleanDisk (state S.Store journal)
            → Ties (state S.Store journal) (map string_bytes rows.items) [] }
        ensures rows { result.1.0 ≡ map string_bytes rows.items }
        ensures settled { result.1.1 ≡ [] }
    {
        StoredOrders {
            alloc,
            opener,
            journal: Some(journal),
            rows,
            doubt: None,
        }
    }
}

impl<S: Alter + Drop, O: OpensJournal<S>> StoredOrders<S, O> {
    /// Begins the numbers of a run behind this one, before its first request: appends the bound of all numbers that it gives. If
    /// the disk is not known to have it, it is in doubt, as an order would be. The only error is an allocation failure.
    pub(crate) fn begin_numbers(&mut self, offset: u64) -> Result<(), AllocError>
        ensures bound { OnOk result (self.old.1.1 ≡ []
            → IsKeptOrInDoubt self.old.1.0 (run_bound offset) self.new.1.0 self.new.1.1) }
        ensures unchanged { OnErr result (self.new ≡ self.old) }
    {
        let bound = bound_text(self.alloc, offset.saturating_add(NUMBERS_OF_RUN))?;
        let is_ready = repair(
            self.alloc,
            &self.opener,
            &mut self.journal,
            &mut self.rows,
            &mut self.doubt,
        );
        if is_ready {
            let _is_kept = append(&mut self.journal, &mut self.rows, &mut self.doubt, bound);
        }
        Ok(())
    }

    /// Moves what the log of the database still has into its file, so that the file alone has all rows, and opens the database
    /// again. The error is `Changed` if it has other rows then.
    pub(crate) fn without_log(self) -> Result<StoredOrders<S, O>, StartFault>
        ensures rows { IfOk result (λ orders. orders.1.0 ≡ self.1.0) }
        ensures settled { IfOk result (λ orders. orders.1.1 ≡ []) }
        ensures fault { IfErr result (FailsToMove S.Store self.1.0) }
    {
        let StoredOrders {
            alloc,
            opener,
            journal,
            rows,
            doubt: _,
        } = self;
        let Some(journal) = journal else {
            return Err(StartFault::Journal(JournalFault::Closed));
        };
        let again = reopened(alloc, &opener, journal, &rows)?;
        Ok(StoredOrders::opened(alloc, opener, again, rows))
    }
}

impl<S: Alter + Drop, O: OpensJournal<S>> OrderJournal for StoredOrders<S, O> {
    ghost kept = { λ o. drop 1 o.1.0 };

    ghost doubt = { λ o. o.1.1 };

    ghost may_find = { λ o found. MayFind S.Store o.0 found };

    fn is_ready(&mut self) -> bool {
        repair(
            self.alloc,
            &self.opener,
            &mut self.journal,
            &mut self.rows,
            &mut self.doubt,
        )
    }

    fn append(&mut self, text: String) -> bool {
        append(&mut self.journal, &mut self.rows, &mut self.doubt, text)
    }

    fn survives(&self) {
        let _rows = self.rows.len();
    }
}

/// Appends the text of an order that follows these rows. Returns whether the journal is known to keep it.
fn append<S: Alter>(
    journal: &mut Option<Journal<S>>,
    rows: &mut Vec<String>,
    doubt: &mut Option<String>,
    text: String,
) -> bool
    requires tied { IsTied S.Store journal.old (map string_bytes rows.old.items) (doubt_in doubt.old) }
    requires ready { doubt_in doubt.old ≡ [] }
    ensures tied { IsTied S.Store journal.new (map string_bytes rows.new.items) (doubt_in doubt.new) }
    ensures kept { result ≡ true → rows.new.items ≡ rows.old.items ++ text ∷ [] }
    ensures settled { result ≡ true → doubt_in doubt.new ≡ [] }
    ensures behind { result ≡ false → rows.new.items ≡ rows.old.items }
    ensures in_doubt { result ≡ false → doubt_in doubt.new ≡ string_bytes text ∷ [] }
{
    if rows.reserve(1).is_err() {
        *doubt = Some(text);
        return false;
    }
    let is_kept = append_row(journal, text.as_str());
    settle(rows, doubt, text, is_kept);
    is_kept
}

/// Saves the order in doubt, if there is one: opens the journal again, and appends the order if the journal lacks it. Returns
/// whether no order is in doubt now.
fn repair<S: Alter + Drop, O: OpensJournal<S>>(
    alloc: Global,
    opener: &O,
    journal: &mut Option<Journal<S>>,
    rows: &mut Vec<String>,
    doubt: &mut Option<String>,
) -> bool
    requires { IsTied S.Store journal.old (map string_bytes rows.old.items) (doubt_in doubt.old) }
    ensures tied { IsTied S.Store journal.new (map string_bytes rows.new.items) (doubt_in doubt.new) }
    ensures kept { result ≡ true → map string_bytes rows.new.items ≡ map string_bytes rows.old.items ++ doubt_in doubt.old }
    ensures settled { result ≡ true → doubt_in doubt.new ≡ [] }
    ensures behind { result ≡ false → rows.new.items ≡ rows.old.items }
    ensures in_doubt { result ≡ false → doubt_in doubt.new ≡ doubt_in doubt.old }
    ensures some { result ≡ false → doubt_in doubt.old ≢ [] }
{
    if doubt.is_none() {
        return true;
    }
    if rows.reserve(1).is_err() {
        return false;
    }
    let Some(text) = doubt.take() else {
        return true;
    };
    // The journal that failed is closed first, since it may hold the lock of its file.
    *journal = None;
    let (opened, is_kept) = append_again(alloc, opener, rows, text.as_str());
    *journal = opened;
    settle(rows, doubt, text, is_kept);
    is_kept
}

/// Remembers the text of an order among the rows if it is kept, and else as the one in doubt.
fn settle(rows: &mut Vec<String>, doubt: &mut Option<String>, text: String, is_kept: bool)
    requires { vec_len rows.old + 1 ≤ vec_capacity rows.old }
    ensures kept { is_kept ≡ true → rows.new.items ≡ rows.old.items ++ text ∷ [] }
    ensures settled { is_kept ≡ true → doubt_in doubt.new ≡ [] }
    ensures behind { is_kept ≡ false → rows.new.items ≡ rows.old.items }
    ensures in_doubt { is_kept ≡ false → doubt_in doubt.new ≡ string_bytes text ∷ [] }
{
    if !is_kept {
        *doubt = Some(text);
        return;
    }
    *doubt = None;
    match rows.push(text) {
        Ok(()) => {}
        Err(_) => unreachable!(),
    }
}
