//! The lines of an operator, read one after the other.
ghost use Rattle.std.specs.Prelude.{◌≡◌, List, ℕ, IfOk, false};
ghost use Rattle.bg_operator.specs.Reading.{Gives, Known};
ghost use Rattle.bg_operator.specs.OperatorLines.{NextIs, last_speaks_http};

use crate::command::Command;
use crate::line::read_text;
use crate::line_fault::LineFault;
use crate::lines::{Found, next_line};
use crate::read_fault::ReadFault;
use std::alloc::Global;
use std::io::BufRead;

/// Reads the lines of a script or of a control connection. Each call borrows the reader.
pub struct OperatorLines {
    alloc: Global,
    line: Vec<u8>,
    /// Whether the last line gives no command and is a line of HTTP.
    speaks_http: bool,
}

impl Drop for OperatorLines {
    /// Drops the fields by one call, so that the proofs of what owns a value are short (CONTRIBUTING.md, "What a check costs").
    fn drop(self) {
        let OperatorLines {
            alloc: _,
            line: _,
            speaks_http: _,
        } = self;
    }
}

impl OperatorLines {
    /// Gives a reader that has seen no line of HTTP. Allocates nothing; the memory for a line is allocated when it is
    /// read.
    pub fn new(alloc: Global) -> OperatorLines
        ensures { last_speaks_http result ≡ false }
    {
        OperatorLines {
            alloc,
            line: Vec::new(alloc),
            speaks_http: false,
        }
    }

    /// The command of the next line, or why it gives none; `None` if there is no further line. A line that is
    /// too long is skipped, and gives `TooLong`.
    ///
    /// After a `ReadFault` the reader must not be used any more.
    pub fn next<B: BufRead>(
        &mut self,
        reader: &mut B,
    ) -> Result<Option<Result<Command, LineFault>>, ReadFault>
        ensures { IfOk result (λ next. Known (B.remaining reader.old) (B.remaining reader.new)
            (NextIs next (last_speaks_http self.new))) }
    {
        let found = next_line(reader, &mut self.line)?;
        let (read, speaks_http) = line_read(self.alloc, found, &self.line);
        self.speaks_http = speaks_http;
        Ok(read)
    }

    /// Whether the last line gives no command and is a line of HTTP: a request line, or a field line (RFC
    /// 9112 sections 3 and 5). Any bytes count as a request target, and a line that is too long is not a
    /// line of HTTP. False before the first line and at the end.
    pub fn speaks_http(&self) -> bool
        ensures { result ≡ last_speaks_http self.now }
    {
        self.speaks_http
    }
}

/// The command of the line that was found, if there is one, and whether it gives no command and is a
/// line of HTTP.
fn line_read(alloc: Global, found: Found, line: &[u8]) -> (Option<Result<Command, LineFault>>, bool)
    ensures { (xs ys : List ℕ) → Gives found line.now xs ys → NextIs result.0 result.1 xs ys }
{
    match found {
        Found::End => (None, false),
        Found::TooLong => (Some(Err(LineFault::TooLong)), false),
        Found::Line => {
            let (read, http) = read_text(alloc, line);
            (Some(read), http)
        }
    }
}
