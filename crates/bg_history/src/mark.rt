//! The mark that gives a revision its deadline.
ghost use Rattle.std.specs.Prelude.{◌≡◌};
ghost use Rattle.bg_history.specs.Tables.{has_left};

/// The reason why a revision has a deadline.
#[derive(Clone, Copy, PartialEq, Eq, Debug, Drop)]
pub enum Cause {
    /// The active service no longer selects it: it stays scaled for the delay.
    Left,
    /// A deploy took its place while it was neither active nor stable: it may be scaled down at once.
    Superseded,
    /// Its attempt was halted: it stays scaled for the delay of an aborted revision.
    Aborted,
}

/// The newest mark of a revision.
#[derive(Clone, Copy, PartialEq, Eq, Debug, Drop)]
pub struct RevisionMark {
    /// The number of the revision.
    pub revision: u64,
    pub cause: Cause,
    /// The moment from which the revision may be scaled down, in seconds from the start.
    pub deadline: u64,
}

impl Cause {
    /// Whether the revision left the active service.
    pub fn has_left(self) -> bool
        ensures { result ≡ has_left self }
    {
        match self {
            Cause::Left => true,
            Cause::Superseded | Cause::Aborted => false,
        }
    }
}
