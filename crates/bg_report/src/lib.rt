//! Writes the reply of a book and its report, as exact texts.
//!
//! This crate makes no decisions. Each function writes the whole text, or fails if the writer
//! fails.
#![tactic(auto)]

mod replies;
mod reports;

pub use replies::reply;
pub use reports::report;
