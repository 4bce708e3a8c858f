//! The store of a journal: a row for each order in a SQLite database.
//!
//! A [`Journal`] has the texts of orders; bg_journal writes and reads such texts. What was appended is found by the
//! next [`Journal::open`], also after a crash ([`laws::survives_crash`]).
#![tactic(auto)]

mod fault;
mod journal;
pub mod laws;
mod reading;
mod schema;

pub use fault::JournalFault;
pub use journal::Journal;
