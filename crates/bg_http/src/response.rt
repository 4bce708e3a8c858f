//! A response.
ghost use Rattle.std.specs.Prelude.{◌≡◌};

use crate::bytes::Bytes;
use crate::fields::Fields;

/// The head of a response: its first line and its fields (RFC 9112 sections 4 and 5).
#[derive(Debug)]
pub struct ResponseHead {
    /// The minor version, 0 for HTTP/1.0. Any other is treated as HTTP/1.1.
    pub minor: u8,
    /// The status code.
    pub code: u16,
    /// The reason phrase, which may be empty.
    pub reason: Bytes,
    /// The fields. Their values have no spaces and tabs at either end.
    pub fields: Fields,
}

impl Drop for ResponseHead {
    /// Drops the fields by one call, so that the proofs of what owns a value are short (CONTRIBUTING.md, "What a check costs").
    fn drop(self) {
        let ResponseHead {
            minor: _,
            code: _,
            reason: _,
            fields: _,
        } = self;
    }
}

impl ResponseHead {
    /// The response that has this head, the length to write and the body.
    pub fn with_body(self, length: Option<Bytes>, body: Bytes) -> Response
        ensures code { result.code ≡ self.code }
        ensures reason { result.reason ≡ self.reason }
        ensures fields { result.fields ≡ self.fields }
        ensures length { result.length ≡ length }
        ensures body { result.body ≡ body }
    {
        let ResponseHead {
            minor: _,
            code,
            reason,
            fields,
        } = self;
        Response {
            code,
            reason,
            fields,
            length,
            body,
        }
    }
}

/// A response with its whole body.
#[derive(Debug)]
pub struct Response {
    /// The status code.
    pub code: u16,
    /// The reason phrase, which may be empty.
    pub reason: Bytes,
    /// The fields as they were received. Their values have no spaces and tabs at either end.
    pub fields: Fields,
    /// The digits of the Content-Length to write; `None` if none is written. If there is no body
    /// because of the request's method or the code, it may still be the length that a body would
    /// have.
    pub length: Option<Bytes>,
    /// The body; empty if there is none.
    pub body: Bytes,
}

impl Drop for Response {
    /// Drops the fields by one call, so that the proofs of what owns a value are short (CONTRIBUTING.md, "What a check costs").
    fn drop(self) {
        let Response {
            code: _,
            reason: _,
            fields: _,
            length: _,
            body: _,
        } = self;
    }
}
