//! What is logged of a connection.
ghost use Rattle.std.specs.Prelude.{◌≡◌, ◌++◌, IfOk};
ghost use Rattle.std.specs.Cow.{cow_str_bytes};
ghost use Rattle.std.specs.Option.{option_map};
ghost use Rattle.bg_access_log.specs.Lines.{Adds, count_members, end_members, line_text, object, optional_members, request_members};

use crate::line::{OptionalValue, add_number, add_optional_text, add_optionals, add_text};
use crate::time_text::{TimeText, text_of};
use json::Writer;
use std::alloc::{AllocError, Global};
use std::borrow::CowStr;

/// The number of bytes that most lines do not exceed.
const USUAL_LENGTH: usize = 512;

/// What is logged of a connection. The line has these keys in this order. The value of a key that is
/// `None` is null; those behind `upstream_ms` are left out then.
#[derive(Drop)]
pub struct LogEntry<'a> {
    /// When the connection ended, as `AccessLog::time` gives it.
    pub time: Option<TimeText>,
    /// `active` or `preview`.
    pub service: &'static str,
    /// The number of the revision to which the request was assigned.
    pub revision: Option<u64>,
    /// The number of the request.
    pub request: Option<u64>,
    /// The port of the endpoint that was dialled last.
    pub port: Option<u16>,
    pub method: Option<CowStr<'a>>,
    /// The request target. The program gives at most its first 1,024 bytes.
    pub target: Option<CowStr<'a>>,
    /// The status code of the response or refusal. The program gives 499 if the client had gone before its answer.
    pub status: Option<u16>,
    /// How the connection ended: `answered`, `refused`, `closed`, `read_failed` or `write_failed`.
    pub end: &'static str,
    /// Why the client was refused.
    pub reason: Option<&'static str>,
    /// The number of bytes that came of the request.
    pub request_bytes: u64,
    /// The number of bytes that the worker gave for the client. They may not be written yet.
    pub response_bytes: u64,
    /// The number of milliseconds from the accept until the worker ended the connection.
    pub duration_ms: u64,
    /// The number of milliseconds from when a worker got the connection to the first bytes of the response.
    pub upstream_ms: Option<u64>,
    /// The port that the request was assigned. The program gives it only if another port was dialled last.
    pub slot_port: Option<u16>,
    /// The number of connects to endpoints that were tried. The program gives it only with `--redispatch`.
    pub tries: Option<u32>,
    /// The number of connections that ended without having sent a byte, since the last line that told of some. They have
    /// no lines of their own. The program gives it only if there were any.
    pub idle_connections: Option<u64>,
    /// The number of the request among those of its connection, from 1 on. The program gives it only with `--keep-alive`.
    pub connection_request: Option<u64>,
    /// Whether the connection to the endpoint had carried a request before. The program gives it only with `--keep-alive`, and
    /// if there was a connection.
    pub upstream_reused: Option<bool>,
    /// The id that the endpoint was told of the request. The program gives it only with `--forwarded`, at most its first 1,024
    /// bytes.
    pub request_id: Option<CowStr<'a>>,
    /// How the tunnel ended that the request became; `None` if it became none.
    pub tunnel: Option<&'static str>,
}

impl LogEntry<'_> {
    /// The line, with its end. An error only if an allocation fails.
    pub(crate) fn to_line(&self, alloc: Global) -> Result<Vec<u8>, AllocError>
        ensures { IfOk result (λ line. line.items ≡ line_text self.now) }
    {
        let mut line = Writer::new(Vec::with_capacity(alloc, USUAL_LENGTH)?);
        self.add_object(&mut line)?;
        let mut bytes = line.into_inner();
        bytes.push(b'\n')?;
        Ok(bytes)
    }

    /// Writes the object of the line.
    fn add_object(&self, line: &mut Writer) -> Result<(), AllocError>
        ensures { Adds result line.old line.new (object self.now) }
    {
        line.begin_object()?;
        self.add_request(line)?;
        self.add_end(line)?;
        self.add_counts(line)?;
        self.add_optional(line)?;
        line.end_object()
    }

    /// Writes when the connection ended, and its request.
    fn add_request(&self, line: &mut Writer) -> Result<(), AllocError>
        ensures { Adds result line.old line.new (request_members self.now) }
    {
        add_text(line, "time", text_of(&self.time))?;
        add_text(line, "service", Some(self.service))?;
        add_number(line, "revision", self.revision)?;
        add_number(line, "request", self.request)?;
        add_number(line, "port", as_number(self.port))?;
        add_text(line, "method", as_text(&self.method))?;
        add_text(line, "target", as_text(&self.target))
    }

    /// Writes how the connection ended.
    fn add_end(&self, line: &mut Writer) -> Result<(), AllocError>
        ensures { Adds result line.old line.new (end_members self.now) }
    {
        add_number(line, "status", as_number(self.status))?;
        add_text(line, "end", Some(self.end))?;
        add_text(line, "reason", self.reason)
    }

    /// Writes what was counted and measured.
    fn add_counts(&self, line: &mut Writer) -> Result<(), AllocError>
        ensures { Adds result line.old line.new (count_members self.now) }
    {
        add_number(line, "request_bytes", Some(self.request_bytes))?;
        add_number(line, "response_bytes", Some(self.response_bytes))?;
        add_number(line, "duration_ms", Some(self.duration_ms))?;
        add_number(line, "upstream_ms", self.upstream_ms)
    }

    /// Writes what the line need not have.
    fn add_optional(&self, line: &mut Writer) -> Result<(), AllocError>
        ensures { Adds result line.old line.new (optional_members self.now) }
    {
        let slot_port = as_number(self.slot_port);
        let tries = as_wide(self.tries);
        let members = [
            ("slot_port", OptionalValue::Number(slot_port)),
            ("tries", OptionalValue::Number(tries)),
            (
                "idle_connections",
                OptionalValue::Number(self.idle_connections),
            ),
            (
                "connection_request",
                OptionalValue::Number(self.connection_request),
            ),
            ("upstream_reused", OptionalValue::Flag(self.upstream_reused)),
        ];
        add_optionals(line, &members)?;
        add_optional_text(line, "request_id", as_text(&self.request_id))?;
        add_optional_text(line, "tunnel", self.tunnel)
    }
}

/// A port or a status code as a number.
fn as_number(number: Option<u16>) -> Option<u64>
    ensures { result ≡ number }
{
    number.map(u64::from)
}

/// A number of tries as a number.
fn as_wide(number: Option<u32>) -> Option<u64>
    ensures { result ≡ number }
{
    number.map(u64::from)
}

fn as_text<'t>(text: &'t Option<CowStr>) -> Option<&'t str>
    ensures { option_map (λ t. t.now) result ≡ option_map cow_str_bytes text.now }
{
    match text {
        Some(text) => Some(text.as_str()),
        None => None,
    }
}
