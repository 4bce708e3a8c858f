//! Books that are resumed from the entries of journals.
ghost use Rattle.std.specs.Prelude.{◌≡◌};
ghost use Rattle.bg_ledger.specs.Blanks.{AreAllFor};

use super::samples::strategy;
use crate::history::texts::entry;
use bg_book::{Book, Limits, RolloutOpening};
use bg_history::Entry;
use bg_ledger::{Blanks, Names};
use bg_report::report;
use bg_strategy::Strategy;
use std::alloc::Global;
use std::io::Write;
use std::marker::Brand;
use std::test::Fail;

/// The name of the first revision, the most entries of a history, the entries of the journal, and the book that is
/// resumed (its report and the number of its entries), or why none is.
type Row = (&'static str, u64, &'static str, &'static str);

/// The journal of a rollout that is over, but for its last outcome.
const ROLLED_OUT: &str = "available 1 2
deploy 2 v2 9101 9102
available 2 2
ready 2
resumed 2
switched 2
promoted 2
tick 30";

const RESUMED: &str = "moment 30
phase steady
active 2
preview 2
stable 2
newest 2
revision 1 v1 desired 0 available 0 open 0 deadline none
revision 2 v2 desired 2 available 2 open 0 deadline none
end
entries 9
";

static ROWS: [Row; 5] = [
    ("v1", 1_000_000, ROLLED_OUT, RESUMED),
    (
        "v1",
        1_000_000,
        "available 1 2\ndeploy 2 v2 9101 9102\navailable 2 2\nready 2\nresumed 2\npromoted 2",
        "the entries before entry 5 don't allow it",
    ),
    (
        "v1",
        1_000_000,
        "available 1 2\nenter 0 active 1 1 9002",
        "entry 1 is one of a request, which no journal has",
    ),
    (
        "v1",
        142,
        "available 1 2\ntick 1",
        "the journal has more entries than a history has room for",
    ),
    (
        "V1",
        1_000_000,
        "",
        "a name is 1 to 63 lower-case letters, digits and hyphens, with no hyphen at its ends",
    ),
];

/// The entries of a journal, and what the book of its rollout is opened with.
#[derive(Drop)]
struct Journal<'a> {
    alloc: Global,
    strategy: &'a Strategy,
    name: &'a str,
    limits: Limits,
    entries: Vec<Entry>,
}

/// The number of seats of each book.
const SEATS: u32 = 4;

/// What becomes of a book that is resumed: its report and the number of its entries, or why it is not resumed.
fn resumed<N: Names>(journal: &Journal, blanks: Blanks) -> Result<Vec<u8>, Fail>
    requires blanks { AreAllFor N.Names blanks }
    requires seats { N.seats ≡ 4 }
{
    let opening = RolloutOpening {
        strategy: journal.strategy,
        name: journal.name,
        ports: &[9001, 9002],
        seats: SEATS,
        limits: journal.limits,
    };
    let mut text = Vec::new(journal.alloc);
    match Book::<N>::resume(journal.alloc, &opening, blanks, &journal.entries) {
        Ok((book, seats)) => {
            let reported = report(&book, &mut text);
            let history = book.close(seats);
            reported?;
            writeln!(text, "entries {}", history.len())?;
        }
        Err(fault) => write!(text, "{fault}")?,
    }
    Ok(text)
}

/// The entries of a text.
fn entries_of(alloc: Global, text: &str) -> Result<Vec<Entry>, Fail> {
    let mut entries = Vec::new(alloc);
    for line in text.lines() {
        entries.push(entry(alloc, line)?)?;
    }
    Ok(entries)
}

/// Whether a row's journal leads to its text.
fn is_row(alloc: Global, row: &Row) -> Result<bool, Fail> {
    let strategy = strategy(alloc)?;
    let journal = Journal {
        alloc,
        strategy: &strategy,
        name: row.0,
        limits: Limits {
            entries: row.1,
            ..Limits::usual()
        },
        entries: entries_of(alloc, row.2)?,
    };
    Ok(resumed::<Brand>(&journal, Blanks::new())?.as_slice() == row.3.as_bytes())
}

#[test]
fn books_are_resumed_from_journals(rt: HostRuntime) -> Result<(), Fail> {
    for row in &ROWS {
        let is_row = is_row(rt.alloc(), row)?;
        assert!(rt; is_row, "{}", row.2);
    }
    Ok(())
}
