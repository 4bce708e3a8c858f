//! Reads complete HTTP/1.1 messages (RFC 9110, RFC 9112): finds heads, judges them by the rules of
//! `bg_http`, and reads their bodies to the end that the rules give.
#![tactic(auto)]

mod arrival;
mod body;
mod chunk_lines;
mod final_head;
mod ghost_request;
mod head_end;
mod head_limits;
mod in_memory;
mod intake;
pub mod laws;
mod message_body;
mod message_fault;
mod one_way;
mod parsed_head;
mod received_response;
mod refused_head;
mod request_body;
mod request_feed;
mod request_head;
mod request_parser;
mod request_progress;
mod request_read;
mod request_step;
mod request_stream;
mod response_body;
mod response_feed;
mod response_head;
mod response_parser;
mod response_progress;
mod response_read;
mod seen;
mod taken_heads;
mod trailers;

pub use body::{BodyFraming, BodyStage};
pub use chunk_lines::find_line;
pub use final_head::HeadFound;
pub use ghost_request::GhostRequest;
pub use in_memory::request_in;
pub use received_response::ReceivedResponse;
pub use refused_head::RefusedHead;
pub use request_head::find_request_head;
pub use request_parser::RequestParser;
pub use request_read::read_request;
pub use request_step::RequestStep;
pub use request_stream::RequestStream;
pub use response_head::find_response_head;
pub use response_parser::ResponseParser;
pub use response_read::read_response;
pub use seen::Seen;
pub use taken_heads::ResponseHeads;
pub use trailers::{NoTrailers, find_trailers};
