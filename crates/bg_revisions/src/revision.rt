//! A revision, and what the services select.

use crate::name::Name;
use crate::ports::Ports;

/// A revision of the rollout. Argo Rollouts keeps a ReplicaSet for each.
#[derive(Debug)]
pub struct Revision {
    /// The number, at least 1. No two revisions ever get the same number.
    pub number: u64,
    pub name: Name,
    /// One port for each endpoint at full size.
    pub ports: Ports,
    /// The number of endpoints that the revision wants; 0 if it is scaled down.
    pub desired: u32,
    /// The number of available endpoints by the last report since the revision was scaled down, else 0. A report has
    /// at most the number desired at that time.
    pub available: u32,
}

impl Drop for Revision {
    /// Drops the fields by one call, so that the proofs of what owns a value are short (CONTRIBUTING.md, "What a check costs").
    fn drop(self) {
        let Revision {
            number: _,
            name: _,
            ports: _,
            desired: _,
            available: _,
        } = self;
    }
}

/// A service, which selects a revision.
#[derive(Clone, Copy, PartialEq, Eq, Debug, Drop)]
pub enum Service {
    /// The service that carries live traffic.
    Active,
    /// The service that reaches a new revision for tests.
    Preview,
}

/// The revisions that the services select, with the stable and the newest revision.
#[derive(Clone, Copy, PartialEq, Eq, Debug, Drop)]
pub struct Selectors {
    /// The revision that the active service selects.
    pub active: u64,
    /// The revision that the preview service selects.
    pub preview: u64,
    /// The revision that was last promoted; 1 before the first promotion.
    pub stable: u64,
    /// The revision that was last deployed; 1 before the first deploy.
    pub newest: u64,
}
