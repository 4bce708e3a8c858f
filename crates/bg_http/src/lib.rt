//! HTTP/1.1 messages (RFC 9110, RFC 9112): the rules by which the head of a request or a response
//! is judged, and the bytes in which it is forwarded.
//!
//! The rules are a strict profile: a message is refused if two readers could disagree on its end.
//! docs/HTTP.md lists what is refused although others accept it, and why.
#![tactic(auto)]

mod accept;
mod body_end;
mod bytes;
mod codings;
mod elements;
mod error_page;
mod field;
mod field_place;
mod fields;
pub mod laws;
mod lengths;
mod memory_stream;
mod names;
mod persistence;
mod refusal;
mod removed;
mod request;
mod request_fault;
mod request_rules;
mod response;
mod response_fault;
mod response_rules;
mod stream;
mod writers;

pub use body_end::BodyEnd;
pub use bytes::Bytes;
pub use elements::{Elements, elements_named, is_same_name};
pub use error_page::{ErrorPage, page_for, write_error_page};
pub use field::Field;
pub use fields::{FieldIter, Fields};
pub use memory_stream::MemoryStream;
pub use names::RuledName;
pub use persistence::Persistence;
pub use refusal::{RefusalBody, RefusalPage, write_refusal_with};
pub use removed::{is_forwarded, says_close};
pub use request::{Request, RequestHead};
pub use request_fault::RequestFault;
pub use request_rules::{
    Framing, MOST_REQUEST_BODY, judge_request, judge_request_within, owes_continue,
};
pub use response::{Response, ResponseHead};
pub use response_fault::ResponseFault;
pub use response_rules::{
    MOST_RESPONSE_BODY, ResponseFraming, asks_for_head, judge_response, length_told,
};
pub use stream::{Duplex, MOST_TURNS};
pub use writers::{
    write_framed_request_head, write_refusal, write_request, write_request_head, write_response,
    write_response_head,
};
