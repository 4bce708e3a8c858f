//! Replies.

/// Whether a connection has further lines answered after a reply.
#[derive(Clone, Copy, Debug, Drop, PartialEq, Eq)]
pub enum AfterReply {
    /// Its next line is awaited.
    GoesOn,
    /// It is closed as soon as the reply was taken.
    Closes,
}

/// The reply to a line.
#[derive(Clone, Copy, Drop)]
pub struct Reply<'a> {
    pub bytes: &'a [u8],
    pub after: AfterReply,
}
