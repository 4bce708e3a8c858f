//! Entries without superseded ticks.
ghost use Rattle.std.specs.Prelude.{◌≡◌, ◌∷◌, ◌++◌, List, reverse, OnOk, OnErr};
ghost use Rattle.bg_history.specs.declared.entry.Entry.{Entry as SomeEntry};
ghost use Rattle.bg_history.specs.Compacted.{thin, untick};
ghost use Rattle.bg_journal.specs.Ticks.{left_by};

use bg_history::Entry;
use std::alloc::AllocError;

/// Appends entries to those of a journal, the oldest first, and drops each superseded tick: one that another tick
/// directly follows. So a journal with a tick for each second is read without room for all of them. The only error is an
/// allocation failure.
pub fn append_entries(entries: &mut Vec<Entry>, later: Vec<Entry>) -> Result<(), AllocError>
    ensures { (before : List SomeEntry) → reverse entries.old.items ≡ thin before
        → OnOk result (reverse entries.new.items ≡ thin (reverse later.items ++ before)) }
{
    for entry in later {
        push_entry(entries, entry)?;
    }
    Ok(())
}

/// Appends an entry. A tick takes the place of a tick at the end. The only error is an allocation failure; then that tick
/// is dropped nevertheless.
fn push_entry(entries: &mut Vec<Entry>, entry: Entry) -> Result<(), AllocError>
    ensures pushed { OnOk result (reverse entries.new.items
        ≡ entry ∷ left_by entry (reverse entries.old.items)) }
    ensures failed { OnErr result (reverse entries.new.items
        ≡ left_by entry (reverse entries.old.items)) }
{
    if matches!(&entry, Entry::Tick(_)) {
        drop_last_tick(entries);
    }
    entries.push(entry)?;
    Ok(())
}

/// Drops the last entry if it is a tick.
fn drop_last_tick(entries: &mut Vec<Entry>)
    ensures { reverse entries.new.items ≡ untick (reverse entries.old.items) }
{
    if entries
        .last()
        .is_some_and(|entry| matches!(entry, Entry::Tick(_)))
    {
        entries.pop();
    }
}
