//! The framing of a response as it comes, and as it is passed on.
ghost use Rattle.std.specs.Prelude.{◌≡◌};
ghost use Rattle.bg_http.specs.Persistences.{keeps};
ghost use Rattle.bg_relay.specs.Framings.{incoming_of, outgoing_of};
ghost use Rattle.bg_streams.specs.Framings as spec;

use bg_http::{BodyEnd, Persistence, ResponseFraming};
use bg_relay::{Framing, Sides};

/// The framings of a body as it comes and as it is passed on: with its length if that is known, and otherwise in chunks, or to the
/// end of the connection of a client that does not read chunks (RFC 9112 section 6.3). A response without a body has one of no
/// bytes.
pub(crate) fn sides(reads_chunks: bool, framing: ResponseFraming) -> Sides
    ensures incoming { incoming_of result ≡ spec.incoming framing }
    ensures outgoing { outgoing_of result ≡ spec.outgoing reads_chunks framing }
{
    match framing {
        ResponseFraming::Interim | ResponseFraming::NoBody => Sides::Length(0),
        ResponseFraming::Length(size) => Sides::Length(size),
        ResponseFraming::Chunks => untold(reads_chunks, Framing::Chunks),
        ResponseFraming::ToTheEnd => untold(reads_chunks, Framing::ToTheEnd),
    }
}

/// The framings of a body whose length is not known.
fn untold(reads_chunks: bool, incoming: Framing) -> Sides
    ensures incoming { incoming_of result ≡ incoming }
    ensures outgoing { outgoing_of result ≡ spec.untold reads_chunks }
{
    if reads_chunks {
        Sides::IntoChunks(incoming)
    } else {
        Sides::ToTheEnd(incoming)
    }
}

/// How the head tells the end of a body in this framing.
pub(crate) fn body_end(framing: Framing) -> BodyEnd
    ensures { result ≡ spec.body_end framing }
{
    match framing {
        Framing::Length(_) | Framing::ToTheEnd => BodyEnd::Length,
        Framing::Chunks => BodyEnd::Chunks,
    }
}

/// Whether the connection of the client is kept after a body in this framing.
pub(crate) fn persistence_after(framing: Framing, persistence: Persistence) -> Persistence
    ensures { keeps result ≡ spec.keeps_after framing (keeps persistence) }
{
    match framing {
        Framing::Length(_) | Framing::Chunks => persistence,
        Framing::ToTheEnd => Persistence::Close,
    }
}

/// Whether the framing tells the end of the body by itself, and not by the end of the connection.
pub(crate) fn tells_end(framing: ResponseFraming) -> bool
    ensures { result ≡ spec.tells_end framing }
{
    !matches!(framing, ResponseFraming::ToTheEnd)
}
