//! The texts of a strategy: reads it from a Rollout's JSON, and writes its settings or its first fault.
#![tactic(auto)]

mod fault;
mod first_fault;
mod hints;
mod lookup;
mod reading;
mod settings;
mod spelling;
mod table;
mod values;

pub use fault::StrategyFault;
pub use reading::{read, read_with_hints};
pub use settings::{fault_line, strategy_lines};
pub use table::Field;
