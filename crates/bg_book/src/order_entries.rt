//! The entries of an order, copied from a history for a journal.
ghost use Rattle.std.specs.Prelude.{◌≡◌, ◌+◌, ◌<◌, ◌≤◌, ◌++◌, ◌∷◌, [], length, drop, take, reverse, IfOk, OnOk};
ghost use Rattle.bg_history_laws.specs.Journaled.{journaled};
ghost use Rattle.bg_book.specs.OrderEntries.{outcomes_since_event as outcomes_since};

use bg_history::{Entry, History};
use bg_revisions::{Name, Ports};
use std::alloc::{AllocError, Global};

/// The number of outcomes of a history since its newest event.
pub fn outcomes_since_event(history: &History) -> u64
    ensures since { result ≡ outcomes_since history.now.past }
    ensures few { result ≤ length history.now.past }
{
    let mut outcomes = 0u64;
    for back in 0..history.len() {
        match entry_back(history, back) {
            Entry::Outcome(_) => outcomes += 1,
            Entry::Enter { .. } | Entry::Leave { .. } => {}
            _ => return outcomes,
        }
    }
    outcomes
}

/// Copies of the newest `count` entries of a history, the oldest first. The entries of requests are neither counted nor
/// copied. The only error is an allocation failure.
pub fn newest_entries(
    alloc: Global,
    history: &History,
    count: u64,
) -> Result<Vec<Entry>, AllocError>
    ensures { IfOk result (λ entries. reverse entries.items ≡ take count (journaled history.now.past)) }
{
    let mut entries = newest_first(alloc, history, count)?;
    entries.reverse();
    Ok(entries)
}

/// The same, but the newest first.
fn newest_first(alloc: Global, history: &History, count: u64) -> Result<Vec<Entry>, AllocError>
    ensures { IfOk result (λ entries. entries.items ≡ take count (journaled history.now.past)) }
{
    let mut entries = Vec::new(alloc);
    for back in 0..history.len() {
        if entries.len() as u64 >= count {
            return Ok(entries);
        }
        push_copy(alloc, &mut entries, entry_back(history, back))?;
    }
    Ok(entries)
}

/// Appends a copy of the entry, if it is none of a request. The only error is an allocation failure.
fn push_copy(alloc: Global, entries: &mut Vec<Entry>, entry: &Entry) -> Result<(), AllocError>
    ensures { OnOk result (entries.new.items ≡ entries.old.items ++ journaled (entry.now ∷ [])) }
{
    match entry {
        Entry::Enter { .. } | Entry::Leave { .. } => {}
        entry => entries.push(copy_of(alloc, entry)?)?,
    }
    Ok(())
}

/// The entry before so many newer ones.
fn entry_back(history: &History, back: u64) -> &Entry
    requires { back < length history.now.past }
    ensures { drop back history.now.past ≡ result.now ∷ drop (back + 1) history.now.past }
{
    history.get(history.len() - 1 - back).unwrap()
}

/// A copy of the entry. The only error is an allocation failure.
fn copy_of(alloc: Global, entry: &Entry) -> Result<Entry, AllocError>
    ensures { IfOk result (λ copy. copy ≡ entry.now) }
{
    Ok(match entry {
        Entry::Tick(moment) => Entry::Tick(*moment),
        Entry::Deploy {
            revision,
            name,
            ports,
        } => Entry::Deploy {
            revision: *revision,
            name: Name::new(alloc, name.get())?,
            ports: Ports::new(alloc, ports.get())?,
        },
        Entry::Available { revision, size } => Entry::Available {
            revision: *revision,
            size: *size,
        },
        Entry::Verdict { analysis, result } => Entry::Verdict {
            analysis: *analysis,
            result: *result,
        },
        Entry::Promote => Entry::Promote,
        Entry::PromoteFull => Entry::PromoteFull,
        Entry::Abort => Entry::Abort,
        Entry::Retry => Entry::Retry,
        Entry::Enter {
            seat,
            service,
            number,
            revision,
            port,
        } => Entry::Enter {
            seat: *seat,
            service: *service,
            number: *number,
            revision: *revision,
            port: *port,
        },
        Entry::Leave {
            seat,
            number,
            revision,
        } => Entry::Leave {
            seat: *seat,
            number: *number,
            revision: *revision,
        },
        Entry::Outcome(outcome) => Entry::Outcome(*outcome),
    })
}
