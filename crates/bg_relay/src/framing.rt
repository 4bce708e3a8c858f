//! How the end of a body is marked.
ghost use Rattle.std.specs.Prelude.{◌≡◌};
ghost use Rattle.bg_http_read.specs.Bodies.{is_whole as whole_at};
ghost use Rattle.bg_relay.specs.Framings.{incoming_of, most_to_come, outgoing_of};
ghost use Rattle.bg_relay.specs.Places.{first_stage};

use bg_http_read::BodyStage;

/// How the end of a body is marked (RFC 9112 section 6.3).
#[derive(Clone, Copy, Drop)]
pub enum Framing {
    /// The body has this many bytes.
    Length(usize),
    /// The body is chunked (RFC 9112 section 7.1).
    Chunks,
    /// The body is everything before the end of the connection.
    ToTheEnd,
}

/// The framings of a body on both sides of a relay. A length can be told only if the input tells the same one.
#[derive(Clone, Copy, Drop)]
pub enum Sides {
    /// Both sides tell this length.
    Length(usize),
    /// The input has this framing, and the output is chunked.
    IntoChunks(Framing),
    /// The input has this framing, and the output goes to the end of the connection.
    ToTheEnd(Framing),
}

impl Sides {
    /// The framing of the input.
    pub fn incoming(self) -> Framing
        ensures { result ≡ incoming_of self }
    {
        match self {
            Sides::Length(size) => Framing::Length(size),
            Sides::IntoChunks(incoming) | Sides::ToTheEnd(incoming) => incoming,
        }
    }

    /// The framing of the output.
    pub fn outgoing(self) -> Framing
        ensures { result ≡ outgoing_of self }
    {
        match self {
            Sides::Length(size) => Framing::Length(size),
            Sides::IntoChunks(_) => Framing::Chunks,
            Sides::ToTheEnd(_) => Framing::ToTheEnd,
        }
    }
}

/// The stage before the first byte of a body.
pub(crate) fn first_stage(framing: Framing) -> BodyStage
    ensures { result ≡ first_stage framing }
{
    match framing {
        Framing::Length(size) => BodyStage::Length(size),
        Framing::Chunks => BodyStage::Line,
        Framing::ToTheEnd => BodyStage::ToTheEnd,
    }
}

/// The most bytes that may come of a body in this framing, if at most `most` may come of one whose length is not told.
pub(crate) fn most_to_come(framing: Framing, most: usize) -> usize
    ensures { result ≡ most_to_come framing most }
{
    match framing {
        Framing::Length(_) => usize::MAX,
        Framing::Chunks | Framing::ToTheEnd => most,
    }
}

/// Whether the body is whole.
pub(crate) fn is_whole(stage: BodyStage) -> bool
    ensures { result ≡ whole_at stage }
{
    matches!(stage, BodyStage::Whole | BodyStage::Length(0))
}
