//! Whether a request goes on while its revision drains.

/// Whether a forwarded request goes on.
#[derive(Clone, Copy, PartialEq, Eq, Debug, Drop)]
pub enum GoOn {
    /// The request goes on.
    Keep,
    /// The request has to end: its revision drains, and the drain limit is over.
    Cut,
}
