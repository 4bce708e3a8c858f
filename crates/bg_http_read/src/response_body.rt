//! A response whose head is known and whose body is being fed.
ghost use Rattle.std.specs.Prelude.{◌≡◌, IfOk};
ghost use Rattle.bg_http_read.specs.Responses.{body_of_response, length_of_response};
ghost use Rattle.bg_http_read.specs.ResponsesFed.{HasParts};

use crate::body::BodyFraming;
use crate::message_body::MessageBody;
use bg_http::{Bytes, MOST_RESPONSE_BODY, Response, ResponseFraming, ResponseHead, length_told};
use std::alloc::{AllocError, Global};

/// The digits of the length that is forwarded: the length of the body, or the length in the head if
/// there is no body.
fn length_of_response(
    alloc: Global,
    framing: ResponseFraming,
    head: &ResponseHead,
    body: &Bytes,
) -> Result<Option<Bytes>, AllocError>
    ensures { IfOk result (λ length. length ≡ length_of_response framing head.now body.now) }
{
    match framing {
        ResponseFraming::Interim => Ok(None),
        ResponseFraming::NoBody => match length_told(head) {
            Some(digits) => Ok(Some(Bytes::new(alloc, digits)?)),
            None => Ok(None),
        },
        ResponseFraming::Chunks | ResponseFraming::Length(_) | ResponseFraming::ToTheEnd => {
            let digits = body.get().len().to_string(alloc)?;
            Ok(Some(Bytes::from_vec(digits.into_bytes())))
        }
    }
}

/// A response whose head is known and whose body is being fed.
pub(crate) type ResponseBody = MessageBody<ResponseHead, ResponseFraming>;

/// How the body of a response ends.
pub(crate) fn body_of_response(framing: ResponseFraming) -> BodyFraming
    ensures { result ≡ body_of_response framing }
{
    match framing {
        ResponseFraming::Interim | ResponseFraming::NoBody => BodyFraming::Empty,
        ResponseFraming::Chunks => BodyFraming::Chunks(MOST_RESPONSE_BODY),
        ResponseFraming::Length(size) => BodyFraming::Length(size),
        ResponseFraming::ToTheEnd => BodyFraming::ToTheEnd(MOST_RESPONSE_BODY),
    }
}

impl MessageBody<ResponseHead, ResponseFraming> {
    /// The response, with the bytes of its body that were fed. The only error is an allocation
    /// failure.
    pub(crate) fn into_response(self, alloc: Global) -> Result<Response, AllocError>
        ensures { IfOk result (λ response. HasParts response self) }
    {
        let (head, framing, body) = self.into_parts();
        let body = body.into_bytes();
        let length = length_of_response(alloc, framing, &head, &body)?;
        Ok(head.with_body(length, body))
    }
}
