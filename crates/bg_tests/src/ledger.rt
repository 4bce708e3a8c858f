//! Seats and the book's records of them.

mod four_seats;
mod sizes;
