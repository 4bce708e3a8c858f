//! Passes a large request and its response on as they come.
//!
//! It is a machine without sockets. The body is passed on in the framing in which it comes, by its length or in chunks (RFC 9112
//! sections 6.3 and 7.1), and of each side at most a window is held.
#![tactic(auto)]

mod large_request;
pub mod laws;
mod outgoing_request;
#[cfg(test)]
mod runs;
mod upload;
mod upload_fault;
mod upload_terms;

pub use large_request::{LargeRequest, find_large_request};
pub use outgoing_request::OutgoingRequest;
pub use upload::Upload;
pub use upload_fault::UploadFault;
pub use upload_terms::UploadTerms;
