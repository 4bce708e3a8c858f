//! The routing book.

mod limits;
mod many_seats;
mod openings;
mod resuming;
mod runs;
pub(crate) mod samples;
