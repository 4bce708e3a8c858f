//! The start of a switch with a journal.
ghost use Rattle.std.specs.Prelude.{◌≡◌, ◌∷◌, [], map, reverse, IfErr, IfNone, IfOk, IfSome, OnOk, string_bytes};
ghost use Rattle.bg_book.specs.OrderEntries.{leading_outcomes};
ghost use Rattle.bg_order_journal.specs.FirstRow.{first_row as first_row_of};
ghost use Rattle.bg_journal.specs.Bounds.{bound_text as text_of_bound};
ghost use Rattle.bg_order_journal.specs.Refusals.{FailsToBegin, FailsToBeginInFile, FailsToMove, FailsToOpen, WasRead};
ghost use Rattle.bg_order_journal.specs.Starts.{AreOf, GoesOn};
ghost use Rattle.bg_order_journal.specs.Ties.{Ties};
ghost use Rattle.sqlite.specs.Held.{state};
ghost use Rattle.sqlite.specs.State.{HasCleanDisk};
ghost use Rattle.bg_strategy_text.specs.Texts.{strategy_text};

use crate::first_row::{first_revision, first_row, settings_of};
use crate::opens_journal::OpensJournal;
use crate::orders::{Said, read_orders};
use crate::rows::{append_text, is_text, open_rows};
use crate::start_fault::StartFault;
use crate::stored_orders::StoredOrders;
use bg_history::Entry;
use bg_journal::bound_text;
use bg_journal_store::Journal;
use bg_script::{DeskJournal, FirstRevision, NumberedJournal};
use bg_strategy::Strategy;
use sqlite::Alter;
use std::alloc::{AllocError, Global};

/// A journal from which a book is resumed.
pub struct Resumption<S: Alter, O: OpensJournal<S>> {
    pub orders: StoredOrders<S, O>,
    /// The first revision of the journal, with which its book was opened.
    pub first: FirstRevision,
    /// The entries of its orders, the oldest first, without superseded ticks: those that another tick directly follows.
    pub entries: Vec<Entry>,
    /// The last bound of request numbers that the journal has: no earlier run gave a greater number. It is 0 if there is none.
    pub numbers: u64,
    /// The number of orders.
    pub count: usize,
}

impl<S: Alter + Drop, O: OpensJournal<S>> Drop for Resumption<S, O> {
    /// Drops the fields by one call, so that the proofs of what owns a value are short (CONTRIBUTING.md, "What a check costs").
    fn drop(self) {
        let Resumption {
            orders: _,
            first: _,
            entries: _,
            numbers: _,
            count: _,
        } = self;
    }
}

impl<S: Alter + Drop, O: OpensJournal<S>> Resumption<S, O> {
    /// The journal of a desk whose book was resumed. The numbers of its requests begin behind the last bound. The only error is
    /// an allocation failure.
    pub fn into_journal(self) -> Result<NumberedJournal<StoredOrders<S, O>>, AllocError>
        ensures { IfOk result (λ run. self.orders.1.1 ≡ []
            → GoesOn self.orders.1.0 self.numbers (leading_outcomes (reverse self.entries.items)) run) }
    {
        let Resumption {
            mut orders,
            first: _,
            entries,
            numbers,
            count: _,
        } = self;
        orders.begin_numbers(numbers)?;
        Ok(NumberedJournal {
            desk: DeskJournal::resumed(orders, &entries),
            offset: numbers,
        })
    }

    /// The orders, after what the log of the database still has was moved into its file: the file alone then has all of the
    /// journal. It stays open. The error is `Changed` if another process has changed it meanwhile.
    pub fn into_file(self) -> Result<StoredOrders<S, O>, StartFault>
        ensures rows { IfOk result (λ orders. orders.1.0 ≡ self.orders.1.0) }
        ensures settled { IfOk result (λ orders. orders.1.1 ≡ []) }
        ensures fault { IfErr result (FailsToMove S.Store self.orders.1.0) }
    {
        let Resumption {
            orders,
            first: _,
            entries: _,
            numbers: _,
            count: _,
        } = self;
        orders.without_log()
    }
}

/// Opens a journal, and reads what a book is resumed from. `None` if the journal has no rows: then [`begin_numbered`] begins it
/// when a book is opened. A journal of another strategy is refused, and one whose rows are not those of a journal.
pub fn open_journal<S: Alter + Drop, O: OpensJournal<S>>(
    alloc: Global,
    opener: O,
    strategy: &Strategy,
) -> Result<Option<Resumption<S, O>>, StartFault>
    ensures resumed { IfOk result (λ found. IfSome found (λ r.
        AreOf (strategy_text strategy.now) r.orders.1.0 r.orders.1.1 r.first r.entries.items r.numbers r.count)) }
    ensures empty { IfOk result (λ found. IfNone found (WasRead S.Store (λ rows. rows ≡ []))) }
    ensures fault { IfErr result (FailsToOpen S.Store (O.fails opener) (strategy_text strategy.now)) }
{
    let settings = settings_of(alloc, strategy)?;
    let (journal, rows) = open_rows(alloc, &opener)?;
    let Some((row, texts)) = rows.as_slice().split_first() else {
        return Ok(None);
    };
    let first = first_revision(alloc, settings.as_str(), row.as_str())?;
    let Said {
        entries,
        numbers,
        count,
    } = read_orders(alloc, texts)?;
    Ok(Some(Resumption {
        orders: StoredOrders::opened(alloc, opener, journal, rows),
        first,
        entries,
        numbers,
        count,
    }))
}

/// Begins a journal with the strategy and the first revision. The numbers of its requests are those of the book. The error is
/// `NotNew` if the journal has rows, other than this first one, which an earlier try may have left.
pub fn begin_numbered<S: Alter + Drop, O: OpensJournal<S>>(
    alloc: Global,
    opener: O,
    strategy: &Strategy,
    first: &FirstRevision,
) -> Result<NumberedJournal<StoredOrders<S, O>>, StartFault>
    ensures begun { IfOk result
        (GoesOn (first_row_of (strategy_text strategy.now) first.now.name first.now.ports ∷ []) 0 0) }
    ensures fault { IfErr result (FailsToBegin S.Store (O.fails opener)
        (first_row_of (strategy_text strategy.now) first.now.name first.now.ports)) }
{
    let (journal, rows) = begun_rows::<S, O>(alloc, &opener, strategy, first)?;
    let mut orders = StoredOrders::opened(alloc, opener, journal, rows);
    orders.begin_numbers(0)?;
    Ok(NumberedJournal {
        desk: DeskJournal::resumed(orders, &[]),
        offset: 0,
    })
}

/// Begins a journal, as [`begin_numbered`] does, in the file of its database alone: its log has nothing of it. The numbers of
/// requests begin behind this bound. Gives the journal as a start resumes it.
pub fn begin_in_file<S: Alter + Drop, O: OpensJournal<S>>(
    alloc: Global,
    opener: O,
    strategy: &Strategy,
    first: FirstRevision,
    numbers: u64,
) -> Result<Resumption<S, O>, StartFault>
    ensures rows { IfOk result (λ begun. begun.orders.1.0
        ≡ first_row_of (strategy_text strategy.now) first.name first.ports ∷ text_of_bound numbers ∷ []) }
    ensures settled { IfOk result (λ begun. begun.orders.1.1 ≡ []) }
    ensures first { IfOk result (λ begun. begun.first ≡ first) }
    ensures none { IfOk result (λ begun. begun.entries.items ≡ []) }
    ensures numbers { IfOk result (λ begun. begun.numbers ≡ numbers) }
    ensures count { IfOk result (λ begun. begun.count ≡ 0) }
    ensures fault { IfErr result (FailsToBeginInFile S.Store
        (first_row_of (strategy_text strategy.now) first.name first.ports) (text_of_bound numbers)) }
{
    let bound = bound_text(alloc, numbers)?;
    let (mut journal, mut rows) = begun_rows::<S, O>(alloc, &opener, strategy, &first)?;
    append_text(&mut journal, bound.as_str())?;
    rows.push(bound)?;
    let orders = StoredOrders::opened(alloc, opener, journal, rows).without_log()?;
    Ok(Resumption {
        orders,
        first,
        entries: Vec::new(alloc),
        numbers,
        count: 0,
    })
}

/// A journal with the first row, and this row.
fn begun_rows<S: Alter + Drop, O: OpensJournal<S>>(
    alloc: Global,
    opener: &O,
    strategy: &Strategy,
    first: &FirstRevision,
) -> Result<(Journal<S>, Vec<String>), StartFault>
    ensures rows { IfOk result (λ r. map string_bytes r.1.items
        ≡ first_row_of (strategy_text strategy.now) first.now.name first.now.ports ∷ []) }
    ensures tied { IfOk result (λ r. HasCleanDisk (state S.Store r.0)
        → Ties (state S.Store r.0) (map string_bytes r.1.items) []) }
    ensures fault { IfErr result (FailsToBegin S.Store (O.fails opener.now)
        (first_row_of (strategy_text strategy.now) first.now.name first.now.ports)) }
{
    let settings = settings_of(alloc, strategy)?;
    let Some(row) = first_row(alloc, settings.as_str(), first) else {
        return Err(StartFault::OutOfMemory);
    };
    let (mut journal, rows) = open_rows(alloc, opener)?;
    begin_rows(&mut journal, &rows, row.as_str())?;
    let mut only = Vec::new(alloc);
    only.push(row)?;
    Ok((journal, only))
}

/// Appends the first row to a journal with these rows, unless it is the only one already.
fn begin_rows<S: Alter>(
    journal: &mut Journal<S>,
    rows: &[String],
    row: &str,
) -> Result<(), StartFault>
    requires { HasCleanDisk (state S.Store journal.old)
        → Ties (state S.Store journal.old) (map string_bytes rows.now) [] }
    ensures begun { HasCleanDisk (state S.Store journal.new)
        → OnOk result (Ties (state S.Store journal.new) (row.now ∷ []) []) }
    ensures fault { IfErr result (FailsToBegin S.Store (λ _. ⊥) row.now) }
{
    match rows {
        [] => {
            append_text(journal, row)?;
            Ok(())
        }
        [only] if is_text(only, row) => Ok(()),
        _ => Err(StartFault::NotNew),
    }
}
