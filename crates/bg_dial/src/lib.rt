//! How a connection to an endpoint is opened: the trait [`Dial`], and what a dial gives.
#![tactic(auto)]

mod dial;
mod dialled;

pub use dial::Dial;
pub use dialled::{Dialled, Route};
