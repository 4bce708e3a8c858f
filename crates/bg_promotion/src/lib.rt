//! The promotion of a new revision: the phase of the rollout, the commands that it takes, and the next step
//! (Argo Rollouts, "BlueGreen Deployment Strategy", sequence of events).
#![tactic(auto)]

mod faults;
pub mod laws;
mod phase;
mod promotion;

pub use faults::{AbortFault, PromoteFault, PromoteFullFault, RetryFault, VerdictFault};
pub use phase::Phase;
pub use promotion::Core;
