//! A client's connection while its large request is passed on by the caller, before, and after that.
ghost use Rattle.std.specs.Prelude.{◌≡◌, IsTrue, vec_capacity};
ghost use Rattle.std.specs.Option.{option_copied};
ghost use Rattle.bg_http.specs.Statuses.{is_refusal};
ghost use Rattle.bg_client_side.specs.Clients.{with_large, with_last_answer, without_any};
ghost use Rattle.bg_both_sides.specs.Answers.{unwritten};
ghost use Rattle.bg_both_sides.specs.LargeRequests.{IsLastRefusal, page_of, without_request};

use crate::both_sides::BothSides;
use crate::endpoint_side::EndpointSide;
use crate::texts::refusal_text;
use bg_client_side::{ClientConnection, ClientSettings};
use bg_http::Request;
use std::alloc::Global;

impl BothSides {
    /// A client's connection whose large request waits for a seat. `request` is the request without its body, which its caller
    /// passes on once the request has a connection to its endpoint. Until then it enters, is dialled for and is refused as any other
    /// one; the connection ends after its answer.
    pub fn of_large(alloc: Global, settings: ClientSettings, request: Request) -> BothSides
        ensures { result ≡ without_request (with_large settings request) }
    {
        BothSides {
            alloc,
            client: ClientConnection::of_large(alloc, settings, request),
            endpoint: EndpointSide::NoRequest,
        }
    }

    /// A client's connection that ends after this answer, of which nothing was written. Its request was read whole or not: if it
    /// was not, the client may still be sending it.
    pub fn of_last(
        alloc: Global,
        settings: ClientSettings,
        text: Vec<u8>,
        was_whole: bool,
        now: u64,
    ) -> BothSides
        ensures { result
            ≡ without_request (with_last_answer settings (unwritten text.items (vec_capacity text)) was_whole now) }
    {
        BothSides {
            alloc,
            client: ClientConnection::of_last(alloc, settings, text, was_whole, now),
            endpoint: EndpointSide::NoRequest,
        }
    }

    /// A client's connection that ends after a refusal with this status: of this request, which was not read whole, or of what is
    /// no request. Without memory for the refusal it has left.
    pub fn of_refusal(
        alloc: Global,
        settings: ClientSettings,
        request: Option<&Request>,
        status: u16,
        now: u64,
    ) -> BothSides
        requires { IsTrue (is_refusal status) }
        ensures { IsLastRefusal settings (page_of settings.refusal_body (option_copied request.entry)) status now result }
    {
        let page = match request {
            Some(request) => settings.refusal_body.page_for(request),
            None => settings.refusal_body.page_for_fault(),
        };
        match refusal_text(alloc, page, status) {
            Ok(text) => BothSides::of_last(alloc, settings, text, false, now),
            Err(_) => BothSides::of_none(alloc, settings),
        }
    }

    /// A client's connection that has left, as far as this machine is concerned: its caller has it.
    pub fn of_none(alloc: Global, settings: ClientSettings) -> BothSides
        ensures { result ≡ without_request (without_any settings) }
    {
        BothSides {
            alloc,
            client: ClientConnection::of_none(alloc, settings),
            endpoint: EndpointSide::NoRequest,
        }
    }
}
