//! The text of a journal: writes and reads a line for each entry.
//!
//! A journal has the entries of a history without those of requests ([`bg_history_laws::journals`]). [`write_entries`]
//! writes their lines, and [`read_entries`] reads them: each text that was written is read as the entries that were
//! written, and no other text is read. A text may also be that of no entries, and say a bound of the numbers of requests
//! ([`bound_text`]).
#![tactic(auto)]

mod bound;
mod entry_line;
pub mod laws;
mod reading;
mod text_fault;
mod ticks;
mod words;
mod writing;

pub use bound::{bound_in, bound_text};
pub use reading::{read_entries, read_entry};
pub use text_fault::TextFault;
pub use ticks::append_entries;
pub use writing::{has_line, write_entries, write_entry};
