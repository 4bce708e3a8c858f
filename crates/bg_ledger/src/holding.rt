//! The quantities of a seat.

/// What a seat or a record has at its index. Contracts see a seat and a record as a `Holding`.
#[derive(Clone, Copy)]
pub struct Holding {
    /// The index among the seats of a book, from 0.
    pub index: u32,
    /// The number of answered calls.
    pub calls: u64,
    /// The number of the seat's request, at least 1; 0 if it holds none.
    pub number: u64,
    /// The number of that request's revision; 0 without a request.
    pub revision: u64,
    /// The port of that request; 0 without a request.
    pub port: u64,
}
