//! The texts that are written to the two connections.
ghost use Rattle.std.specs.Prelude.{◌≡◌, ◌++◌, IfOk, IsTrue, true};
ghost use Rattle.bg_http.specs.Persistences.{keeps};
ghost use Rattle.bg_http.specs.RefusalPages.{refused_text};
ghost use Rattle.bg_http.specs.Statuses.{is_refusal};
ghost use Rattle.bg_http.specs.Texts as spec;
ghost use Rattle.bg_upgrade.specs.HeadTexts.{upgrade_text as text_of_upgrade};
ghost use Rattle.bg_upgrade.specs.Upgrades.{asks_for_upgrade as asks};
ghost use Rattle.bg_endpoint_side.specs.OutgoingTexts.{uncopied_body as uncopied_of};
ghost use Rattle.bg_both_sides.specs.Sides.{forwarded_text};

use bg_endpoint_side::{Terms, uncopied_body};
use bg_http::{
    Persistence, RefusalPage, Request, Response, write_refusal_with, write_request,
    write_request_head, write_response,
};
use bg_upgrade::upgrade_text;
use std::alloc::Global;
use std::io;

/// The number of bytes that most heads do not exceed. A text begins with room for so many, since it would else grow line by
/// line.
const USUAL_HEAD: usize = 512;

/// The text of a request as it is forwarded under these terms, up to the body that is not copied. The only error is an allocation
/// failure.
pub(crate) fn request_front(alloc: Global, request: &Request, terms: Terms) -> io::Result<Vec<u8>>
    requires { terms.asks_for_upgrade ≡ true → asks request.now ≡ true }
    ensures { IfOk result (λ front. front.items ++ uncopied_of request.now ≡ forwarded_text terms request.now) }
{
    if terms.asks_for_upgrade {
        upgrade_front(alloc, request)
    } else {
        plain_front(alloc, request, terms.port, terms.persistence)
    }
}

/// The text of a request that asks for an upgrade, which has no body. The only error is an allocation failure.
fn upgrade_front(alloc: Global, request: &Request) -> io::Result<Vec<u8>>
    requires { asks request.now ≡ true }
    ensures { IfOk result (λ front. front.items ++ uncopied_of request.now ≡ text_of_upgrade request.now) }
{
    match upgrade_text(alloc, request)? {
        Some(text) => Ok(text),
        None => unreachable!(),
    }
}

/// The text of a request that is forwarded as an ordinary one, up to the body that is not copied. The only error is an allocation
/// failure.
fn plain_front(
    alloc: Global,
    request: &Request,
    port: u16,
    persistence: Persistence,
) -> io::Result<Vec<u8>>
    ensures { IfOk result (λ front. front.items ++ uncopied_of request.now
        ≡ spec.request_text (keeps persistence) request.now port) }
{
    let copied = match &request.body {
        Some(body) if uncopied_body(request).is_empty() => body.get().len(),
        _ => 0,
    };
    let mut front = Vec::with_capacity(alloc, copied.saturating_add(USUAL_HEAD))?;
    if uncopied_body(request).is_empty() {
        write_request(request, port, persistence, &mut front)?;
    } else {
        write_request_head(request, port, persistence, &mut front)?;
    }
    Ok(front)
}

/// The text of a response as it is forwarded. The only error is an allocation failure.
pub(crate) fn response_text(
    alloc: Global,
    request: &Request,
    response: &Response,
    persistence: Persistence,
) -> io::Result<Vec<u8>>
    ensures { IfOk result (λ text.
        text.items ≡ spec.response_text (keeps persistence) request.now response.now) }
{
    let usual = response.body.get().len().saturating_add(USUAL_HEAD);
    let mut text = Vec::with_capacity(alloc, usual)?;
    write_response(request, response, persistence, &mut text)?;
    Ok(text)
}

/// The text of a refusal with this page, or with an empty body. The only error is an allocation failure.
pub(crate) fn refusal_text(
    alloc: Global,
    page: Option<RefusalPage>,
    status: u16,
) -> io::Result<Vec<u8>>
    requires { IsTrue (is_refusal status) }
    ensures { IfOk result (λ text. text.items ≡ refused_text page status) }
{
    let mut text = Vec::new(alloc);
    write_refusal_with(status, page, &mut text)?;
    Ok(text)
}
