//! How the client is answered.
ghost use Rattle.std.specs.Prelude.{◌≡◌, ℕ, IsTrue, Ok, Err, Option};
ghost use Rattle.bg_http.specs.Statuses.{is_refusal};
ghost use Rattle.bg_http.specs.declared.request_fault.RequestFault.{RequestFault};
ghost use Rattle.bg_both_sides.specs.Answers.{Answer, Refuses, RefusesWith, Replies, Reply, lacks, with_answer};

use crate::endpoint_step::Given;
use crate::texts::{refusal_text, response_text};
use bg_client_side::ClientConnection;
use bg_endpoint_side::ForwardFault;
use bg_http::{Persistence, RefusalPage, Request, Response, ResponseFault};
use std::alloc::Global;

/// Gives the client the answer to its request for which its endpoint gave this: the response, or a refusal with the status
/// of the fault. Without memory for the response, the client is refused with 503; without memory for a refusal, its
/// connection leaves. Tells which of them it was.
pub(crate) fn answer(
    client: &mut ClientConnection,
    alloc: Global,
    request: &Request,
    given: Result<Response, ForwardFault>,
    now: u64,
) -> Given
    ensures { (reply : Option Reply) × Replies request.now given result now client.old reply client.new }
{
    match given {
        Ok(response) => respond(client, alloc, request, &response, now),
        Err(fault) => {
            refuse(client, alloc, request, fault.status(), now);
            Given::Refusal(fault)
        }
    }
}

/// Gives the client a response, or refuses it with 503. Tells which of them it was.
fn respond(
    client: &mut ClientConnection,
    alloc: Global,
    request: &Request,
    response: &Response,
    now: u64,
) -> Given
    ensures { (reply : Option Reply)
        × Replies request.now (Ok response.now) result now client.old reply client.new }
{
    let persistence = client.persistence();
    match response_text(alloc, request, response, persistence) {
        Ok(text) => {
            client.answer(text, persistence, now);
            Given::Response(response.code)
        }
        Err(_) => {
            refuse(client, alloc, request, 503, now);
            Given::Refusal(ForwardFault::Response(ResponseFault::OutOfMemory))
        }
    }
}

/// Refuses a request of the client with this status. The refusal has the page for the request, if the connection has pages.
pub(crate) fn refuse(
    client: &mut ClientConnection,
    alloc: Global,
    request: &Request,
    status: u16,
    now: u64,
)
    requires { IsTrue (is_refusal status) }
    ensures { (answer : Option Answer) × Refuses (Ok request.now) status now client.old answer client.new }
{
    let page = client.refusal_body().page_for(request);
    refuse_with(client, alloc, page, status, now);
}

/// Refuses what the client sent and is no request with this status. The refusal has a page, if the connection has pages.
pub(crate) fn refuse_fault(client: &mut ClientConnection, alloc: Global, status: u16, now: u64)
    requires { IsTrue (is_refusal status) }
    ensures { (fault : RequestFault)
        → (answer : Option Answer) × Refuses (Err fault) status now client.old answer client.new }
{
    let page = client.refusal_body().page_for_fault();
    refuse_with(client, alloc, page, status, now);
}

/// Refuses the client with this page and this status.
fn refuse_with(
    client: &mut ClientConnection,
    alloc: Global,
    page: Option<RefusalPage>,
    status: u16,
    now: u64,
)
    requires { IsTrue (is_refusal status) }
    ensures { (answer : Option Answer) × RefusesWith page status now client.old answer client.new }
{
    match refusal_text(alloc, page, status) {
        Ok(text) => {
            client.answer(text, Persistence::Close, now);
        }
        Err(_) => leave_unanswered(client, alloc, now),
    }
}

/// Has the client's connection leave without an answer.
pub(crate) fn leave_unanswered(client: &mut ClientConnection, alloc: Global, now: u64)
    ensures { (weight : ℕ) × (client.new ≡ with_answer (lacks weight) now client.old) }
{
    client.fail();
    client.answer(Vec::new(alloc), Persistence::Close, now);
}
