//! What the connections of an event loop take, and which of them are paused or given up for it.
#![tactic(auto)]

mod accept_fault;
mod activity;
mod among;
mod connection;
pub mod laws;
mod load;
mod load_table;
mod loads;
mod pauses;
mod progress;
mod ranking;
#[cfg(test)]
mod runs;
mod settings;
mod totals;

pub use accept_fault::AcceptFault;
pub use activity::Activity;
pub use among::Among;
pub use loads::Loads;
pub use settings::LoadSettings;
pub use totals::Totals;
