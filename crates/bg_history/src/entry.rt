//! The entries of a history.

use bg_revisions::{Name, Ports, Service};

/// When an analysis runs (Argo Rollouts, "BlueGreen Deployment Strategy").
#[derive(Clone, Copy, PartialEq, Eq, Debug, Drop)]
pub enum Analysis {
    /// Before the active service switches: `prePromotionAnalysis`.
    Pre,
    /// After the active service switched: `postPromotionAnalysis`.
    Post,
}

/// The result of an analysis.
#[derive(Clone, Copy, PartialEq, Eq, Debug, Drop)]
pub enum AnalysisResult {
    Successful,
    Failed,
    Error,
}

/// A step that the switch itself takes once an event allows it. Each outcome names its revision.
#[derive(Clone, Copy, PartialEq, Eq, Debug, Drop)]
pub enum Outcome {
    /// The new revision has the endpoints that its preview needs.
    Ready(u64),
    /// The analysis and the pause before the switch are over: the new revision grows to full size.
    Resumed(u64),
    /// The active service selects the new revision.
    Switched(u64),
    /// The new revision is the stable one.
    Promoted(u64),
    /// An old revision was scaled down: it wants no endpoint and has none available.
    ScaledDown(u64),
    /// An old revision was removed.
    Removed(u64),
}

/// An entry of a history: an event, or an outcome that an event allowed.
#[derive(Debug)]
pub enum Entry {
    /// The moment becomes this, in seconds from the start.
    Tick(u64),
    /// A template was deployed as this revision.
    Deploy {
        revision: u64,
        name: Name,
        ports: Ports,
    },
    /// A revision has this many available endpoints.
    Available {
        revision: u64,
        size: u32,
    },
    /// An analysis ended.
    Verdict {
        analysis: Analysis,
        result: AnalysisResult,
    },
    /// An operator ended the pause.
    Promote,
    /// An operator skipped the analyses and pauses of the attempt.
    PromoteFull,
    /// An operator aborted the attempt.
    Abort,
    /// An operator began a new attempt after one was halted.
    Retry,
    /// A request entered at a seat, and got this number, revision and port.
    Enter {
        seat: u32,
        service: Service,
        number: u64,
        revision: u64,
        port: u16,
    },
    /// The request of a seat left.
    Leave {
        seat: u32,
        number: u64,
        revision: u64,
    },
    Outcome(Outcome),
}

impl Drop for Entry {
    /// Drops the fields by one call, so that the proofs of what owns a value are short (CONTRIBUTING.md, "What a check costs").
    fn drop(self) {
        match self {
            Entry::Tick(_) => {}
            Entry::Deploy {
                revision: _,
                name: _,
                ports: _,
            } => {}
            Entry::Available {
                revision: _,
                size: _,
            } => {}
            Entry::Verdict {
                analysis: _,
                result: _,
            } => {}
            Entry::Promote | Entry::PromoteFull | Entry::Abort | Entry::Retry => {}
            Entry::Enter {
                seat: _,
                service: _,
                number: _,
                revision: _,
                port: _,
            } => {}
            Entry::Leave {
                seat: _,
                number: _,
                revision: _,
            } => {}
            Entry::Outcome(_) => {}
        }
    }
}
