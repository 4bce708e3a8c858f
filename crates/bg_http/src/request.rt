//! A request.
ghost use Rattle.std.specs.Prelude.{◌≡◌};

use crate::bytes::Bytes;
use crate::fields::Fields;

/// The head of a request: its first line and its fields (RFC 9112 sections 3 and 5).
#[derive(Debug)]
pub struct RequestHead {
    /// The method, for example `GET`. Methods are case-sensitive.
    pub method: Bytes,
    /// The target, as it was received.
    pub target: Bytes,
    /// The minor version, 0 for HTTP/1.0. Any other is treated as HTTP/1.1, the highest version
    /// that is supported (RFC 9110 section 2.5).
    pub minor: u8,
    /// The fields. Their values have no spaces and tabs at either end.
    pub fields: Fields,
}

impl Drop for RequestHead {
    /// Drops the fields by one call, so that the proofs of what owns a value are short (CONTRIBUTING.md, "What a check costs").
    fn drop(self) {
        let RequestHead {
            method: _,
            target: _,
            minor: _,
            fields: _,
        } = self;
    }
}

impl RequestHead {
    /// The request that has this head and the body.
    pub fn with_body(self, body: Option<Bytes>) -> Request
        ensures method { result.method ≡ self.method }
        ensures target { result.target ≡ self.target }
        ensures minor { result.minor ≡ self.minor }
        ensures fields { result.fields ≡ self.fields }
        ensures body { result.body ≡ body }
    {
        let RequestHead {
            method,
            target,
            minor,
            fields,
        } = self;
        Request {
            method,
            target,
            minor,
            fields,
            body,
        }
    }
}

/// A request with its whole body.
#[derive(Debug)]
pub struct Request {
    /// The method, for example `GET`. Methods are case-sensitive.
    pub method: Bytes,
    /// The target, as it was received.
    pub target: Bytes,
    /// The minor version, 0 for HTTP/1.0. Any other is treated as HTTP/1.1, the highest version
    /// that is supported (RFC 9110 section 2.5).
    pub minor: u8,
    /// The fields as they were received. Their values have no spaces and tabs at either end.
    pub fields: Fields,
    /// The body; `None` if the head has neither Content-Length nor Transfer-Encoding.
    pub body: Option<Bytes>,
}

impl Drop for Request {
    /// Drops the fields by one call, so that the proofs of what owns a value are short (CONTRIBUTING.md, "What a check costs").
    fn drop(self) {
        let Request {
            method: _,
            target: _,
            minor: _,
            fields: _,
            body: _,
        } = self;
    }
}
