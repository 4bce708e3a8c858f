//! The results of reading a parser's input.

/// The result of a read directly into the memory of a body.
#[derive(Drop)]
pub(crate) enum Straight {
    /// No read was made.
    Unread,
    /// Reading failed.
    Failed,
    /// The read gave this many bytes; 0 at the end of the input.
    Came(usize),
}

/// The result of the next read of a parser's input.
#[derive(Drop)]
pub(crate) enum Arrival {
    /// The end of the input.
    End,
    /// This many bytes of the piece are still to be fed; 0 if the read went directly into a body.
    Piece(usize),
}
