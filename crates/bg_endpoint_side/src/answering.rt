//! What a request that is forwarded comes to with the bytes of its response.
ghost use Rattle.std.specs.Prelude.{◌≡◌, ◌&&◌, ◌||◌, Ok, not};
ghost use Rattle.std.specs.Option.{option_copied};
ghost use Rattle.bg_http.specs.Codings.{is_empty};
ghost use Rattle.bg_http.specs.Persistences.{keeps};
ghost use Rattle.bg_http.specs.Removed.{says_close as has_close};
ghost use Rattle.bg_endpoint_side.specs.Outcomes.{told};
ghost use Rattle.bg_endpoint_side.specs.Versions.{is_whole};

use crate::endpoint_request::EndpointRequest;
use crate::outcome::{Health, Outcome};
use bg_http::{Persistence, Response, says_close};
use bg_http_read::ReceivedResponse;

/// What is told of an endpoint by whether a byte came.
pub(crate) fn health_of(has_come: bool) -> Health
    ensures { result ≡ told has_come }
{
    if has_come {
        Health::Answers
    } else {
        Health::Unknown
    }
}

/// Whether there are bytes.
pub(crate) fn has_bytes(bytes: &[u8]) -> bool
    ensures { result ≡ not (is_empty bytes.now) }
{
    !bytes.is_empty()
}

/// Whether a byte came, if these came last.
pub(crate) fn has_come_with(has_come: bool, bytes: &[u8]) -> bool
    ensures { result ≡ (has_come || not (is_empty bytes.now)) }
{
    has_come || has_bytes(bytes)
}

/// Whether the connection may be kept after a response: the whole text was written, and neither side ends it (RFC 9112
/// section 9.3).
pub(crate) fn may_stay(request: &EndpointRequest, response: &Response) -> bool
    ensures { result ≡ (is_empty request.now.text.rest && keeps request.now.state.terms.persistence
        && not request.now.state.is_ending && is_whole (option_copied request.now.version.left)
        && not (has_close response.now.fields)) }
{
    request.text.is_sent()
        && request.state.terms.persistence == Persistence::Keep
        && !request.state.is_ending
        && request.version.is_whole()
        && !says_close(&response.fields)
}

/// The request is over with a response.
pub(crate) fn answered(received: ReceivedResponse, may_stay: bool, health: Health) -> Outcome
    ensures { result ≡ record {
      answer = Ok received.response;
      goes_back = received.is_drained && may_stay;
      health = health;
    } }
{
    let ReceivedResponse {
        response,
        is_drained,
    } = received;
    Outcome {
        answer: Ok(response),
        goes_back: is_drained && may_stay,
        health,
    }
}
