//! The routing book: the revision that each service selects, and the open requests.
//!
//! Each event is one call of [`Book::enter`], [`Book::leave`] or [`Book::control`]. After every call, the running
//! state of the book is what its history says (`specs/`). Tokens tie the book's record of each seat to the seat
//! (bg_ledger), so what a worker was told stays true of the book. Threads share a book through a [`Desk`].
#![tactic(auto)]

mod book;
mod calls;
mod desk;
mod fault;
pub mod laws;
mod open_book;
mod order_entries;

pub use bg_rollout::{
    Control, ControlFault, EnterFault, GatherFault, GoOn, JournalFault, Left, Limits, OpenFault,
    RolloutOpening, SeatLimit, Ticket,
};
pub use book::Book;
pub use calls::{Call, Reply};
pub use desk::{Desk, JournalEnd, Question, Recorded};
pub use fault::{ResumeFault, RunFault};
pub use open_book::OpenBook;
