//! The routing book behind a lock.

mod calls;
mod cut;
mod gathering;
mod many_seats;
pub(crate) mod rows;
mod scripts;
mod threads;
