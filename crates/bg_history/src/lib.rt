//! The history of a rollout: its entries, what they say, and its compaction.
//!
//! A history grows at its end. Compaction drops the entries of closed requests. `specs/` defines the whole running
//! state of the switch, such as the phase, the sizes and the open requests, as questions about the history, by cases
//! on its newest entry.
#![tactic(auto)]

mod compacting;
mod control;
mod entry;
mod history;
pub mod laws;
mod mark;

pub use control::Control;
pub use entry::{Analysis, AnalysisResult, Entry, Outcome};
pub use history::History;
pub use mark::{Cause, RevisionMark};
