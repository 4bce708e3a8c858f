//! `check`, `replay` and the answers to a control connection, over any reader and writer.
//!
//! [`check`] says what a strategy means; [`replay`] answers the lines of a script by a book of that
//! strategy. Both write exact texts and return the exit status. A [`RunEnd`] says why a run ended
//! early. [`answer_line`] answers one line that was read, at any [`LineStage`], and gives the answer as a value.
//! [`answer_before_open`] and [`answer_at_desk`] answer the lines of a control connection
//! while no book is open, and by a book that workers share. A [`MarksDown`] takes the ports of a line
//! `down`, and a [`BootClock`] says whether a line `before` comes in time. [`answer_at_journaled_desk`] answers an order
//! after its entries were appended to an [`OrderJournal`]. A [`NumberedJournal`] also keeps the numbers of requests apart that
//! several runs give.
#![tactic(auto)]

mod answer;
mod answering;
mod boot_clock;
mod checking;
mod control_connection;
mod desk_journal;
mod finding;
mod journaled_stage;
pub mod laws;
mod marks_down;
mod numbered_journal;
mod order_journal;
mod queries;
mod replaying;
mod run_end;
mod stages;

pub use answer::{Answer, write_answer};
pub use answering::{FirstRevision, LineResult, LinesEnd, answer_line};
pub use boot_clock::BootClock;
pub use checking::{check, finding_of_input};
pub use control_connection::{answer_at_desk, answer_at_journaled_desk, answer_before_open};
pub use desk_journal::DeskJournal;
pub use finding::{Finding, write_finding};
pub use journaled_stage::AtJournaledDesk;
pub use marks_down::MarksDown;
pub use numbered_journal::NumberedJournal;
pub use order_journal::OrderJournal;
pub use replaying::replay;
pub use run_end::RunEnd;
pub use stages::{AtDesk, LineStage, ScriptSettings, WithoutBook};
