//! An access log: a JSON object a line for each ended connection that sent a byte.
//!
//! [`AccessLog::add`] puts a line into memory, and waits for nothing but the log's own lock, which no
//! write holds. [`AccessLog::run_writer`] runs in a thread of its own and writes what was added. So
//! neither a slow disk nor a full one stops a request.
#![tactic(auto)]

mod access_log;
mod line;
mod log_entry;
mod log_file;
mod lost_lines;
mod notices;
mod time_text;
mod trouble;

pub use access_log::AccessLog;
pub use log_entry::LogEntry;
pub use time_text::TimeText;
pub use trouble::LogTrouble;
