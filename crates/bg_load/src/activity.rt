//! What a connection does now.
ghost use Rattle.std.specs.Prelude.{◌≡◌};
ghost use Rattle.bg_load.specs.Activities.{continues, is_answered, is_answering, is_arriving, is_idle, is_large, moved};
ghost use Rattle.bg_load.specs.Paces.{pace_of};

use crate::progress::{Pace, RESPONSE_PACE, request_pace};

/// The number of bytes from which on a request is large.
pub(crate) const LARGE_REQUEST: u64 = 1 << 15;

/// What a connection does now, as the caller observes it.
#[derive(Clone, Copy, PartialEq, Eq, Debug, Drop)]
pub enum Activity {
    /// It is kept, and no byte of a request came since the last answer.
    Idle,
    /// A request is arriving, of which so many bytes came.
    Arriving(u64),
    /// A request is whole and waits for a seat. It has so many bytes; a fault that is to be answered has none.
    Waiting(u64),
    /// It holds a seat.
    Inside,
    /// Its response is written.
    Answering {
        /// The memory of the response, in bytes.
        weight: u64,
        /// The number of bytes of the response that were written.
        written: u64,
    },
    /// It is in its lingering close.
    Lingering {
        /// The number of bytes that were written or discarded.
        moved: u64,
    },
}

impl Activity {
    /// The number of bytes that the connection has moved in this.
    pub(crate) fn moved(self) -> u64
        ensures { result ≡ moved self }
    {
        match self {
            Activity::Arriving(bytes) => bytes,
            Activity::Answering { weight: _, written } => written,
            Activity::Lingering { moved } => moved,
            Activity::Idle | Activity::Waiting(_) | Activity::Inside => 0,
        }
    }

    /// Its pace, if the connection is to make progress in this.
    pub(crate) fn pace(self) -> Option<Pace>
        ensures { result ≡ pace_of self }
    {
        match self {
            Activity::Arriving(bytes) => Some(request_pace(bytes)),
            Activity::Answering { .. } | Activity::Lingering { .. } => Some(RESPONSE_PACE),
            Activity::Idle | Activity::Waiting(_) | Activity::Inside => None,
        }
    }

    /// Whether a request is arriving that is large.
    pub(crate) fn is_large(self) -> bool
        ensures { result ≡ is_large self }
    {
        match self {
            Activity::Arriving(bytes) => bytes >= LARGE_REQUEST,
            Activity::Idle
            | Activity::Waiting(_)
            | Activity::Inside
            | Activity::Answering { .. }
            | Activity::Lingering { .. } => false,
        }
    }

    /// Whether a request is arriving.
    pub(crate) fn is_arriving(self) -> bool
        ensures { result ≡ is_arriving self }
    {
        matches!(self, Activity::Arriving(_))
    }

    /// Whether the connection is kept, and no request is arriving.
    pub(crate) fn is_idle(self) -> bool
        ensures { result ≡ is_idle self }
    {
        matches!(self, Activity::Idle)
    }

    /// Whether the connection was answered, and still takes its response or is in its lingering close.
    pub(crate) fn is_answered(self) -> bool
        ensures { result ≡ is_answered self }
    {
        matches!(
            self,
            Activity::Answering { .. } | Activity::Lingering { .. }
        )
    }

    /// Whether its response is written.
    pub(crate) fn is_answering(self) -> bool
        ensures { result ≡ is_answering self }
    {
        matches!(self, Activity::Answering { .. })
    }

    /// Whether a connection that did this before still does so: it does the same, and moved no fewer bytes. With fewer
    /// bytes, it is another request or response.
    pub(crate) fn continues(self, after: Activity) -> bool
        ensures { result ≡ continues self after }
    {
        match (self, after) {
            (Activity::Idle, Activity::Idle)
            | (Activity::Waiting(_), Activity::Waiting(_))
            | (Activity::Inside, Activity::Inside) => true,
            (Activity::Arriving(_), Activity::Arriving(_))
            | (Activity::Answering { .. }, Activity::Answering { .. })
            | (Activity::Lingering { .. }, Activity::Lingering { .. }) => {
                self.moved() <= after.moved()
            }
            (
                Activity::Idle
                | Activity::Arriving(_)
                | Activity::Waiting(_)
                | Activity::Inside
                | Activity::Answering { .. }
                | Activity::Lingering { .. },
                _,
            ) => false,
        }
    }
}
