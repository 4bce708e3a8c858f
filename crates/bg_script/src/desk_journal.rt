//! The journal to which a desk appends its orders.
ghost use Rattle.std.specs.Prelude.{◌≡◌, [], false, reverse, IfSome, string_bytes};
ghost use Rattle.bg_book.specs.OrderEntries.{leading_outcomes};
ghost use Rattle.bg_script.specs.Journaling.{AppendsBound, IsTextOf, Readies, SavesOrder, SavesText, journal_state};

use crate::answer::Answer;
use crate::order_journal::OrderJournal;
use bg_book::{Recorded, Reply};
use bg_history::Entry;
use bg_journal::write_entries;
use std::alloc::Global;

/// A journal on a disk, and what a desk has to know of it between two orders.
#[derive(Drop)]
pub struct DeskJournal<J: OrderJournal> {
    pub journal: J,
    /// How many outcomes since the newest event the journal was given.
    pub known: u64,
    /// Whether the text of an order was lost for lack of memory. Then no order is carried out any more.
    pub is_lost: bool,
}

impl<J: OrderJournal> DeskJournal<J> {
    /// The journal of a desk whose book was resumed from these entries, the oldest first, which are those of the journal. With
    /// no entries it is that of a book that was just opened.
    pub fn resumed(journal: J, entries: &[Entry]) -> DeskJournal<J>
        ensures { result ≡ record {
          journal = journal;
          known = leading_outcomes (reverse entries.now);
          is_lost = false;
        } }
    {
        DeskJournal {
            journal,
            known: last_outcomes(entries),
            is_lost: false,
        }
    }

    /// Whether each earlier order is kept, so that the next one may be carried out. Tries to save one that is in doubt.
    pub(crate) fn is_ready(&mut self) -> bool
        ensures { Readies (journal_state J.kept J.doubt self.old) result (journal_state J.kept J.doubt self.new) }
    {
        !self.is_lost && self.journal.is_ready()
    }

    /// Appends the text of a bound of request numbers, if each earlier order is kept. If the disk is not known to have it, it is
    /// in doubt, as an order would be.
    pub(crate) fn append_bound(&mut self, bound: String)
        ensures { AppendsBound (journal_state J.kept J.doubt self.old) (string_bytes bound)
            (journal_state J.kept J.doubt self.new) }
    {
        if self.is_ready() {
            let _is_kept = self.journal.append(bound);
        }
    }

    /// Saves an order that was carried out. Returns the answer to it: `Unsaved` if the disk is not known to have it.
    pub(crate) fn save(&mut self, alloc: Global, recorded: &Recorded) -> Answer
        requires { J.doubt self.old.journal ≡ [] }
        ensures { SavesOrder recorded.now (journal_state J.kept J.doubt self.old) result (journal_state J.kept J.doubt self.new) }
    {
        let text = text_of(alloc, recorded);
        if self.is_saved(text, recorded.outcomes) {
            Answer::Made(Reply::Done(recorded.outcomes))
        } else {
            Answer::Unsaved(recorded.outcomes)
        }
    }

    /// Appends the text of an order with so many outcomes, if there is one. Returns whether the disk is known to have it.
    fn is_saved(&mut self, text: Option<String>, outcomes: u64) -> bool
        requires { J.doubt self.old.journal ≡ [] }
        ensures { SavesText text outcomes (journal_state J.kept J.doubt self.old) result
            (journal_state J.kept J.doubt self.new) }
    {
        self.known = outcomes;
        match text {
            Some(text) => self.journal.append(text),
            None => {
                self.is_lost = true;
                false
            }
        }
    }
}

/// How many outcomes stand behind the last other entry.
fn last_outcomes(entries: &[Entry]) -> u64
    ensures { result ≡ leading_outcomes (reverse entries.now) }
{
    let mut outcomes = 0u64;
    for entry in entries {
        match entry {
            Entry::Outcome(_) => outcomes += 1,
            _ => outcomes = 0,
        }
    }
    outcomes
}

/// The text of the entries of an order. `None` if an allocation fails, or if an entry has no line.
fn text_of(alloc: Global, recorded: &Recorded) -> Option<String>
    ensures { IfSome result (λ text. IsTextOf recorded.now.entries (string_bytes text)) }
{
    let Ok(entries) = &recorded.entries else {
        return None;
    };
    let mut bytes = Vec::new(alloc);
    write_entries(entries, &mut bytes).ok()?;
    String::from_utf8(bytes).ok()
}
