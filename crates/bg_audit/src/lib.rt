//! The audit of a history: whether each of its entries was allowed and no allowed outcome is left undone.
//!
//! The audit shares definitions and laws with the crates that make histories. Of code, it shares the list of
//! entries and the checks of a name and of ports.
#![tactic(auto)]

mod allowed;
mod audited_attempt;
mod audited_state;
mod auditing;
mod due;
mod facts;
mod fault;
mod looking_back;
mod marks;
mod numbers;
mod requests;
mod revisions;

pub use auditing::audit;
pub use fault::AuditFault;
