//! The limits of a response that is passed on as it comes.
ghost use Rattle.bg_http.specs.Persistences.{keeps};
ghost use Rattle.bg_both_sides.specs.StreamedEvents.{IsTermsFor};

use bg_http::{Persistence, Request};
use bg_streams::StreamTerms;

/// The limits of a response that is passed on as it comes.
#[derive(Clone, Copy, Drop)]
pub struct StreamLimits {
    /// Bytes of its body are taken while fewer bytes of it are to be written to the client; with 0 none are taken.
    pub window: usize,
    /// The most bytes of its body, those of one in chunks with its chunk lines and trailers. A response with a greater Content-Length is
    /// refused.
    pub most_body: usize,
}

/// How a response is passed on to the client of this persistence that has this request, within these limits.
pub(crate) fn terms_for(client: (Persistence, StreamLimits), request: &Request) -> StreamTerms
    ensures { IsTermsFor (keeps client.0) request.now client.1 result }
{
    let (persistence, limits) = client;
    StreamTerms {
        reads_chunks: request.minor != 0,
        persistence,
        window: limits.window,
        most_body: limits.most_body,
    }
}
