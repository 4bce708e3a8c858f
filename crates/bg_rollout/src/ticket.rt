//! The tickets of requests.

/// A request's number, its revision, and the port of its endpoint.
#[derive(Clone, Copy, PartialEq, Eq, Debug, Drop)]
pub struct Ticket {
    /// At least 1. No two requests get the same number.
    pub number: u64,
    pub revision: u64,
    pub port: u16,
}

/// The request that left a seat.
#[derive(Clone, Copy, PartialEq, Eq, Debug, Drop)]
pub struct Left {
    pub number: u64,
    pub revision: u64,
}
