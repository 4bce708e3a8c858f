//! What was written to a client of its last answer, and what comes after that.

/// What was written of the answer that a client was given last.
#[derive(Clone, Copy, PartialEq, Eq, Debug, Drop)]
pub(crate) struct AnswerProgress {
    /// The number of its bytes.
    pub(crate) size: usize,
    /// The number of its bytes that are not written, if it was logged as an answer.
    pub(crate) unwritten: usize,
    /// Whether a write to the client has failed.
    pub(crate) has_failed: bool,
}

impl AnswerProgress {
    /// No answer was given.
    pub(crate) const NONE: AnswerProgress = AnswerProgress {
        size: 0,
        unwritten: 0,
        has_failed: false,
    };
}

/// The lingering close of a connection (RFC 9112 section 9.6).
#[derive(Clone, Copy, PartialEq, Eq, Debug, Drop)]
pub(crate) struct LingeringClose {
    pub(crate) has_begun: bool,
    /// The number of bytes that were discarded in it.
    pub(crate) discarded: u64,
}

impl LingeringClose {
    /// It has not begun.
    pub(crate) const NOT_BEGUN: LingeringClose = LingeringClose {
        has_begun: false,
        discarded: 0,
    };
}
