//! The strategy of a blue-green rollout.
#![tactic(auto)]

mod label;
mod service_name;
mod strategy;

pub use label::is_dns_label;
pub use service_name::ServiceName;
pub use strategy::Strategy;
