//! Where a request comes from, as its endpoint is told: X-Forwarded-For, X-Forwarded-Proto, X-Forwarded-Host, Forwarded (RFC
//! 7239) and X-Request-Id.
#![tactic(auto)]

mod added;
mod forwarded;
mod ids;
mod kept;
pub mod laws;
mod names;
mod origin;
mod told;

pub use ids::{request_id, request_id_in};
pub use origin::Origin;
pub use told::origin_fields;
