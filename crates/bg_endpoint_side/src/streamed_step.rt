//! What an event makes of a request whose response is passed on as it comes.

use crate::dialing_request::DialingRequest;
use crate::outcome::{ForwardFault, Health};
use crate::streamed_request::StreamedRequest;
use bg_http::Persistence;

/// A response that is whole, of which the client is to take the rest.
#[derive(Drop)]
pub struct StreamedAnswer {
    /// Its status code.
    pub code: u16,
    /// Whether its head keeps the connection of the client.
    pub persistence: Persistence,
    /// What the client is still to take of it: all of it, if it took nothing.
    pub rest: Vec<u8>,
    /// Whether the connection of the endpoint is kept for another request. If not, it is closed.
    pub goes_back: bool,
    /// What it tells of the endpoint.
    pub health: Health,
}

/// What an event makes of a request whose response is passed on as it comes.
pub enum StreamedStep {
    /// It goes on: its response is not whole.
    GoesOn(StreamedRequest),
    /// The connection is closed, and the request is sent again on a new one.
    Again(DialingRequest),
    /// Its response is whole.
    Whole(StreamedAnswer),
    /// The client took nothing of a response, and is refused. The connection is closed.
    Refused(ForwardFault, Health),
    /// The client took a part of its response, which does not come to its end: its connection is closed so that it can tell. The
    /// connection of the endpoint is closed, too.
    Cut(ForwardFault, Health),
}
