//! A worker's seat and the book's record of it, and the proof (tokens) that the two agree.
//!
//! A worker has a `Seat`: the number of its answered calls, and the number, revision and port of the request that
//! it holds. The book has a `SeatRecord` of each seat, with a copy of the same four quantities. The seat and its
//! record come together only while the book's lock is held, so no clause of either can refer to the other. Tokens
//! can: each side has one, both have the same name, and two tokens of one name always say the same. So the copies are
//! equal, regardless of the calls in between. The tokens take no space at run time, and calls on them do nothing at
//! run time.
//!
//! The names of a book's tokens are a ghost member of a type. So a caller opens and uses a book inside a function that
//! is generic over `N: Names`. It calls this function with `Brand` for `N` and with new `Blanks`. The caller's proof
//! picks the names with `names_of` (`specs/Picks.antt`):
//!
//! ```text
//! abbrev pub ghosts-work_four_seats : goal.ghosts-work_four_seats
//! ghosts-work_four_seats g a = names_of 4 a.blanks
//! ```
//!
//! No value whose type names `N` can leave such a function. bg_tests has the complete example
//! (`src/ledger/four_seats.rt`): two threads use four seats, which are then reunited with their records.
#![tactic(auto)]

mod blanks;
mod holding;
mod names;
mod record;
mod seat;
mod tokens;

pub use blanks::Blanks;
pub use holding::Holding;
pub use names::Names;
pub use record::{SeatRecord, pair};
pub use seat::Seat;
