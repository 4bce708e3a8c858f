//! The input of an operator: the lines of any reader, the strategy before them, and the command of a
//! line.
//!
//! [`part_before_script`] and [`whole_input`] read the bytes of a strategy from any buffered reader,
//! [`OperatorLines`] reads one line after the other, and [`parse_line`] gives the command of a line. A [`Line`] is one
//! that the caller found, and is read once. A line of more than 4,096 bytes and a strategy of more than 1,048,576 bytes are reported as too large,
//! and are not stored.
#![tactic(auto)]

mod before;
mod command;
mod http_lines;
mod line;
mod line_fault;
mod lines;
mod operator_lines;
mod parsing;
mod query;
mod read_fault;
mod strategy_part;
mod taking;
mod vocabulary;
mod words;

pub use command::Command;
pub use line::Line;
pub use line_fault::LineFault;
pub use lines::{Found, next_line};
pub use operator_lines::OperatorLines;
pub use parsing::parse_line;
pub use query::Query;
pub use read_fault::ReadFault;
pub use strategy_part::{StrategyPart, part_before_script, whole_input};
pub use taking::MOST_TURNS;
