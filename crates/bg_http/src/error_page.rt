//! Pages, which refusals may have as their bodies.
ghost use Rattle.std.specs.Prelude.{◌≡◌, ◌≤◌, OnOk, IsTrue, length};
ghost use Rattle.std.specs.Io.KnownBytes.{Appends};
ghost use Rattle.bg_http.specs.ErrorPages as spec;
ghost use Rattle.bg_http.specs.Statuses.{is_refusal};

use crate::accept::accepts_html;
use crate::fields::Fields;
use crate::writers::reason;
use std::io;
use std::io::Write;

/// The page that a refusal has as its body. It says the status code and its reason.
#[derive(Clone, Copy, PartialEq, Eq, Debug, Drop)]
pub enum ErrorPage {
    /// A line of text: `text/plain`.
    Text,
    /// A document for browsers: `text/html`.
    Html,
}

impl ErrorPage {
    /// The media type (RFC 9110 section 8.3.1).
    fn media_type(self) -> &'static str
        ensures { result.now ≡ spec.media_type self }
    {
        match self {
            ErrorPage::Text => "text/plain; charset=utf-8",
            ErrorPage::Html => "text/html; charset=utf-8",
        }
    }

    /// The number of bytes of the page for a status.
    fn len(self, status: u16) -> usize
        requires { IsTrue (is_refusal status) }
        ensures { result ≡ length (spec.page_body self status) }
    {
        let title = title_len(status);
        match self {
            ErrorPage::Text => title + "\n".len(),
            ErrorPage::Html => 2 * title + "<!DOCTYPE html>\n<title></title>\n<h1></h1>\n".len(),
        }
    }
}

/// The number of bytes of a status code and its reason.
fn title_len(status: u16) -> usize
    requires { IsTrue (is_refusal status) }
    ensures is { result ≡ length (spec.title_of status) }
    ensures short { result ≤ 35 }
{
    "400 ".len() + reason(status).len()
}

/// The page for the refusal of a request with these fields: HTML if an element of its Accept fields
/// is `text/html`, in any case of its letters, without a weight of zero, and text otherwise (RFC 9110
/// section 12.5.1). A range with `*` does not name HTML, and no Accept field means text.
pub fn page_for(fields: &Fields) -> ErrorPage
    ensures { result ≡ spec.page_for fields.now }
{
    if accepts_html(fields) {
        ErrorPage::Html
    } else {
        ErrorPage::Text
    }
}

/// Writes a refusal with a page: its first line, Content-Type, Content-Length, `Connection: close`
/// and the page. `status` is 400, 413, 431, 501, 502 or 503; the reason is that of RFC 9110 section
/// 15 (431: RFC 6585 section 5). With `to_head` the refused request is a HEAD: the head is the same,
/// and the page is left out (RFC 9110 section 9.3.2). On Ok it has written exactly this.
pub fn write_error_page<W: Write>(
    status: u16,
    page: ErrorPage,
    to_head: bool,
    writer: &mut W,
) -> io::Result<()>
    requires { IsTrue (is_refusal status) }
    ensures { OnOk result (Appends (W.contents writer.old) (W.contents writer.new)
        (spec.error_page_text to_head page status)) }
{
    write_page_head(status, page, writer)?;
    if to_head {
        return Ok(());
    }
    write_page_body(status, page, writer)
}

fn write_page_head<W: Write>(status: u16, page: ErrorPage, writer: &mut W) -> io::Result<()>
    requires { IsTrue (is_refusal status) }
    ensures { OnOk result (Appends (W.contents writer.old) (W.contents writer.new)
        (spec.page_head page status)) }
{
    write!(
        writer,
        "HTTP/1.1 {status} {}\r\nContent-Type: {}\r\nContent-Length: {}\r\nConnection: close\r\n\r\n",
        reason(status),
        page.media_type(),
        page.len(status)
    )
}

fn write_page_body<W: Write>(status: u16, page: ErrorPage, writer: &mut W) -> io::Result<()>
    ensures { OnOk result (Appends (W.contents writer.old) (W.contents writer.new)
        (spec.page_body page status)) }
{
    let reason = reason(status);
    match page {
        ErrorPage::Text => write!(writer, "{status} {reason}\n"),
        ErrorPage::Html => write!(
            writer,
            "<!DOCTYPE html>\n<title>{status} {reason}</title>\n<h1>{status} {reason}</h1>\n"
        ),
    }
}
