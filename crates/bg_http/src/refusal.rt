//! What the refusals of clients have as their bodies.
ghost use Rattle.std.specs.Prelude.{◌≡◌, IsTrue, OnOk, Ok, Err};
ghost use Rattle.std.specs.Io.KnownBytes.{Appends};
ghost use Rattle.bg_http.specs.RefusalPages.{body_of, refusal_page, refused_text};
ghost use Rattle.bg_http.specs.Statuses.{is_refusal};
ghost use Rattle.bg_http.specs.declared.request_fault.RequestFault.{RequestFault};

use crate::error_page::{ErrorPage, page_for, write_error_page};
use crate::request::Request;
use crate::response_rules::asks_for_head;
use crate::writers::write_refusal;
use std::io;
use std::io::Write;

/// What the refusals of clients have as their bodies.
#[derive(Clone, Copy, PartialEq, Eq, Debug, Drop)]
pub enum RefusalBody {
    /// Nothing: a refusal has an empty body.
    Empty,
    /// A page with the status and its reason: HTML if the client accepts it, and text otherwise.
    Page,
}

/// The page of one refusal.
#[derive(Clone, Copy, PartialEq, Eq, Debug, Drop)]
pub struct RefusalPage {
    /// The page.
    pub page: ErrorPage,
    /// Whether the request is a HEAD, to which the page is not sent (RFC 9110 section 9.3.2).
    pub to_head: bool,
}

impl RefusalBody {
    /// Pages, if they are asked for.
    pub fn of_pages(pages: bool) -> RefusalBody
        ensures { result ≡ body_of pages }
    {
        if pages {
            RefusalBody::Page
        } else {
            RefusalBody::Empty
        }
    }

    /// The page for a request that is refused after it was read.
    pub fn page_for(self, request: &Request) -> Option<RefusalPage>
        ensures { result ≡ refusal_page self (Ok request.now) }
    {
        match self {
            RefusalBody::Empty => None,
            RefusalBody::Page => Some(RefusalPage {
                page: page_for(&request.fields),
                to_head: asks_for_head(request),
            }),
        }
    }

    /// The page for what is no request: its fields are not interpreted, so the page is a text.
    pub fn page_for_fault(self) -> Option<RefusalPage>
        ensures { (fault : RequestFault) → result ≡ refusal_page self (Err fault) }
    {
        match self {
            RefusalBody::Empty => None,
            RefusalBody::Page => Some(RefusalPage {
                page: ErrorPage::Text,
                to_head: false,
            }),
        }
    }
}

/// Writes a refusal with this page, or with an empty body. `status` is 400, 413, 431, 501, 502 or
/// 503. On Ok it has written exactly this.
pub fn write_refusal_with<W: Write>(
    status: u16,
    page: Option<RefusalPage>,
    writer: &mut W,
) -> io::Result<()>
    requires { IsTrue (is_refusal status) }
    ensures { OnOk result (Appends (W.contents writer.old) (W.contents writer.new)
        (refused_text page status)) }
{
    match page {
        Some(sent) => write_error_page(status, sent.page, sent.to_head, writer),
        None => write_refusal(status, writer),
    }
}
