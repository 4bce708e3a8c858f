//! The events that come from no seat.

use crate::entry::{Analysis, AnalysisResult};
use bg_revisions::{Name, Ports};

/// An event that comes from no seat (Argo Rollouts, "BlueGreen Deployment Strategy").
#[derive(Debug)]
pub enum Control {
    /// The moment becomes this, in seconds from the start.
    Tick(u64),
    /// A template is deployed: the existing revision of this name, or a new one, with these ports.
    Deploy {
        name: Name,
        ports: Ports,
    },
    /// A revision has this many available endpoints.
    Available {
        revision: u64,
        size: u32,
    },
    /// An analysis ended.
    Verdict {
        analysis: Analysis,
        result: AnalysisResult,
    },
    /// An operator ends the pause of the attempt.
    Promote,
    /// An operator skips the analyses and pauses of the attempt.
    PromoteFull,
    /// An operator aborts the attempt: the active service goes back to the stable revision.
    Abort,
    /// An operator begins a new attempt of the newest revision.
    Retry,
}

impl Drop for Control {
    /// Drops the fields by one call, so that the proofs of what owns a value are short (CONTRIBUTING.md, "What a check costs").
    fn drop(self) {
        match self {
            Control::Tick(_) => {}
            Control::Deploy { name: _, ports: _ } => {}
            Control::Available {
                revision: _,
                size: _,
            } => {}
            Control::Verdict {
                analysis: _,
                result: _,
            } => {}
            Control::Promote | Control::PromoteFull | Control::Abort | Control::Retry => {}
        }
    }
}
