//! The body of a request that its text does not copy.
ghost use Rattle.std.specs.Prelude.{◌≡◌};
ghost use Rattle.bg_endpoint_side.specs.OutgoingTexts.{uncopied_body as uncopied_of};

use bg_http::Request;

/// The most bytes of a body that are copied into the text of its request, so that head and body are written by one call.
const MOST_COPIED: usize = 65_536;

/// The end of the text of a request that is not copied: its body, if that has more than 65,536 bytes.
pub fn uncopied_body(request: &Request) -> &[u8]
    ensures { result.now ≡ uncopied_of request.now }
{
    match &request.body {
        Some(body) if body.get().len() > MOST_COPIED => body.get(),
        _ => &[],
    }
}
