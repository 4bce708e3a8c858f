//! The head of a response as it is passed on.
ghost use Rattle.std.specs.Prelude.{◌≡◌, IfOk};
ghost use Rattle.bg_http.specs.Persistences.{keeps};
ghost use Rattle.bg_streams.specs.HeadTexts as spec;

use crate::framings::{body_end, persistence_after};
use bg_http::{
    Bytes, Persistence, Response, ResponseFraming, ResponseHead, length_told, write_response_head,
};
use bg_relay::Framing;
use std::alloc::{AllocError, Global};
use std::io;

/// The number of bytes that most heads do not exceed. A text begins with room for so many, since it would else grow line by
/// line.
const USUAL_HEAD: usize = 512;

/// The digits of the length that the head tells.
fn length_streamed(
    alloc: Global,
    framing: ResponseFraming,
    head: &ResponseHead,
) -> Result<Option<Bytes>, AllocError>
    ensures { IfOk result (λ length. length ≡ spec.length_streamed framing head.now) }
{
    match framing {
        ResponseFraming::NoBody => match length_told(head) {
            Some(digits) => Ok(Some(Bytes::new(alloc, digits)?)),
            None => Ok(None),
        },
        ResponseFraming::Length(size) => {
            let digits = size.to_string(alloc)?;
            Ok(Some(Bytes::from_vec(digits.into_bytes())))
        }
        ResponseFraming::Interim | ResponseFraming::Chunks | ResponseFraming::ToTheEnd => Ok(None),
    }
}

/// The response that has this head, without a byte of its body. The only error is an allocation failure.
pub(crate) fn streamed(
    alloc: Global,
    framing: ResponseFraming,
    head: ResponseHead,
) -> Result<Response, AllocError>
    ensures { IfOk result (λ response. spec.IsStreamed framing head response) }
{
    let length = length_streamed(alloc, framing, &head)?;
    Ok(head.with_body(length, Bytes::from_vec(Vec::new(alloc))))
}

/// The text of the head, before a body in this framing. The only error is an allocation failure.
pub(crate) fn head_text(
    alloc: Global,
    response: &Response,
    framing: Framing,
    persistence: Persistence,
) -> io::Result<Vec<u8>>
    ensures { IfOk result (λ text. text.items ≡ spec.head_text (keeps persistence) framing response.now) }
{
    let mut text = Vec::with_capacity(alloc, USUAL_HEAD)?;
    let persistence = persistence_after(framing, persistence);
    write_response_head(response, body_end(framing), persistence, &mut text)?;
    Ok(text)
}
