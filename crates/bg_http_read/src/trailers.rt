//! The trailers after the last chunk.
ghost use Rattle.std.specs.Prelude.{◌≡◌, ◌<◌, ◌≤◌, ℕ, IfOk, IfSome, IfNone, OnErr, length, drop};
ghost use Rattle.bg_http_read.specs.BodyFaults.{TrailersFail, cut, malformed};
ghost use Rattle.bg_http_read.specs.Chunks.{ReadsTrailers};

use crate::head_limits::{MOST_FIELDS, MOST_HEAD};
use httparse::Status;
use httparse::spans::{EMPTY_HEADER_SPAN, parse_headers};

/// The most bytes that trailers may have, as many as a head.
const MOST_TRAILERS: usize = MOST_HEAD;

/// The most fields that trailers may have, as many as a head.
const MOST_TRAILER_FIELDS: usize = MOST_FIELDS;

/// The bytes cannot become trailers.
#[derive(Drop)]
pub struct NoTrailers;

/// The length in bytes of the trailers at the front (RFC 9112 section 7.1.2), at most 16,384 bytes and
/// 64 fields. Gives `None` if they are not complete yet, and an error if the bytes cannot become
/// trailers.
pub fn find_trailers(bytes: &[u8]) -> Result<Option<usize>, NoTrailers>
    ensures within { IfOk result (λ found. IfSome found (λ at.
        (0 < at) × (at ≤ length bytes.now))) }
    ensures trailers { IfOk result (λ found. IfSome found (λ at.
        ReadsTrailers bytes.now (drop at bytes.now))) }
    ensures none_yet { IfOk result (λ found. IfNone found (TrailersFail cut bytes.now)) }
    ensures bad { OnErr result (TrailersFail malformed bytes.now) }
{
    let front = &bytes[..bytes.len().min(MOST_TRAILERS)];
    let mut room = [EMPTY_HEADER_SPAN; MOST_TRAILER_FIELDS];
    match parse_headers(front, &mut room) {
        Ok(Status::Complete(found)) => Ok(Some(found.0)),
        Ok(Status::Partial) => {
            if bytes.len() < MOST_TRAILERS {
                return Ok(None);
            }
            Err(NoTrailers)
        }
        Err(_) => Err(NoTrailers),
    }
}
