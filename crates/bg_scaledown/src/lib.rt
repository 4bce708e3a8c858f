//! The deadlines after which an old revision may be scaled down, and the marks that set them.
#![tactic(auto)]

mod deadlines;
pub mod laws;
mod mark_list;
mod marks;

pub use deadlines::Deadlines;
