//! The access log of requests: their entries, by their outcomes and by what else is known of them.
#![tactic(auto)]

mod entry;
mod request_text;
mod service_log;

pub use entry::{ConnectionFacts, entry_of};
pub use service_log::ServiceLog;
