//! A request whose head is known and whose body is being fed.
ghost use Rattle.std.specs.Prelude.{◌≡◌, true};
ghost use Rattle.bg_http.specs.RequestRules.{owes_continue as owed};
ghost use Rattle.bg_http_read.specs.Requests.{body_of_request};
ghost use Rattle.bg_http_read.specs.RequestsFed.{HasParts};

use crate::body::BodyFraming;
use crate::message_body::MessageBody;
use crate::refused_head::RefusedHead;
use bg_http::{Framing, MOST_REQUEST_BODY, Request, RequestHead, owes_continue};

/// A request whose head is known and whose body is being fed.
pub(crate) type RequestBody = MessageBody<RequestHead, Framing>;

/// How the body of a request ends.
pub(crate) fn body_of_request(framing: Framing) -> BodyFraming
    ensures { result ≡ body_of_request framing }
{
    match framing {
        Framing::NoBody => BodyFraming::Empty,
        Framing::Chunks => BodyFraming::Chunks(MOST_REQUEST_BODY),
        Framing::Length(size) => BodyFraming::Length(size),
    }
}

impl MessageBody<RequestHead, Framing> {
    /// Whether `100 Continue` is owed before the body is read.
    pub(crate) fn owes_continue(&self) -> bool
        ensures { result ≡ owed self.now.head self.now.framing }
    {
        owes_continue(&self.head, self.framing)
    }

    /// The head of a request whose body failed.
    pub(crate) fn into_refused_head(self) -> RefusedHead
        ensures { result ≡ record { head = self.head; is_sound = true } }
    {
        let (head, _, _) = self.into_parts();
        RefusedHead {
            head,
            is_sound: true,
        }
    }

    /// The request, with the bytes of its body that were fed.
    pub(crate) fn into_request(self) -> Request
        ensures { HasParts result self }
    {
        let (head, framing, body) = self.into_parts();
        let bytes = body.into_bytes();
        let body = match framing {
            Framing::NoBody => None,
            Framing::Chunks | Framing::Length(_) => Some(bytes),
        };
        head.with_body(body)
    }
}
