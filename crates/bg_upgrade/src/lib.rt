//! The rules of an upgrade to another protocol (RFC 9110 section 7.8).
//!
//! They say which requests ask for an upgrade, in which head such a request is forwarded, which response of the endpoint accepts it,
//! and which head the client gets then. There is no socket here. After an accepted upgrade both connections carry the other
//! protocol, of which nothing is read here.
#![tactic(auto)]

mod acceptance;
mod elements;
mod head_texts;
pub mod laws;
#[cfg(test)]
mod tests;
mod upgrade;

pub use acceptance::{Acceptance, find_acceptance};
pub use head_texts::{acceptance_text, upgrade_text};
pub use upgrade::{accepts_upgrade, asks_for_upgrade};
