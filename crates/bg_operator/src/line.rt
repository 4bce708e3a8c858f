//! A line of an operator that is whole, and is read once.
ghost use Rattle.std.specs.Prelude.{◌≡◌, IfOk, Some, [], false, Err};
ghost use Rattle.bg_operator.specs.HttpLines.{speaks_http};
ghost use Rattle.bg_operator.specs.OperatorLines.{IsOneLine, IsRead, NextIs, text_of};
ghost use Rattle.bg_operator.specs.declared.line_fault.LineFault.TheVariants as line_fault;

use crate::command::Command;
use crate::http_lines::is_field_or_request;
use crate::line_fault::LineFault;
use crate::lines::{LONGEST_LINE, strip_return};
use crate::parsing::parse_line;
use std::alloc::{AllocError, Global};

/// A line of an operator, and what it was read as.
#[derive(Debug, Drop)]
pub struct Line {
    /// Its bytes, without its line end. None of a line that was too long, and was skipped.
    pub text: Vec<u8>,
    /// Its command, or why it gives none.
    pub read: Result<Command, LineFault>,
    /// Whether it gives no command and is a line of HTTP: a request line, or a field line (RFC 9112 sections 3 and 5). Any
    /// bytes count as a request target, and a line that is too long is not a line of HTTP.
    pub speaks_http: bool,
}

impl Line {
    /// Reads a line that is whole. The bytes are those of one line, with its line end, if it has one: LF, and a CR directly
    /// before the LF belongs to it. The only error is that the allocation for the text failed.
    pub fn new(alloc: Global, bytes: &[u8]) -> Result<Line, AllocError>
        ensures text { IfOk result (λ line. line.text.items ≡ text_of bytes.now) }
        ensures read { IfOk result (λ line. IsRead (text_of bytes.now) line.read line.speaks_http) }
        ensures one { IfOk result (λ line. IsOneLine bytes.now → NextIs (Some line.read) line.speaks_http bytes.now []) }
    {
        let mut text = Vec::from_slice(alloc, bytes)?;
        strip_end(&mut text);
        let (read, speaks_http) = read_text(alloc, &text);
        Ok(Line {
            text,
            read,
            speaks_http,
        })
    }

    /// A line that was too long, and was skipped.
    pub fn too_long(alloc: Global) -> Line
        ensures text { result.text.items ≡ [] }
        ensures read { result.read ≡ Err line_fault.TooLong }
        ensures http { result.speaks_http ≡ false }
    {
        Line {
            text: Vec::new(alloc),
            read: Err(LineFault::TooLong),
            speaks_http: false,
        }
    }
}

/// Removes the line end, if there is one.
fn strip_end(line: &mut Vec<u8>)
    ensures { line.new.items ≡ text_of line.old.items }
{
    let length = line.len();
    if length == 0 {
        return;
    }
    if line[length - 1] == b'\n' {
        line.truncate(length - 1);
        strip_return(line);
    }
}

/// The command of a line, which is given without its end, or why it gives none, and whether it gives no command and is a line
/// of HTTP.
pub(crate) fn read_text(alloc: Global, text: &[u8]) -> (Result<Command, LineFault>, bool)
    ensures { IsRead text.now result.0 result.1 }
{
    let read = parse_line(alloc, text);
    let http = is_http_fault(&read, text);
    (read, http)
}

/// Whether a line with this result gives no command and is a line of HTTP.
fn is_http_fault(read: &Result<Command, LineFault>, text: &[u8]) -> bool
    ensures { result ≡ speaks_http read.now text.now }
{
    read.is_err() && text.len() <= LONGEST_LINE && is_field_or_request(text)
}
