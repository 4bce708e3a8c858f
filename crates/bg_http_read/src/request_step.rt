//! The steps of reading a request.
ghost use Rattle.std.specs.Prelude.{◌≡◌};

use bg_http::Request;

/// The step that the bytes fed to a `RequestParser` or a `RequestStream` lead to.
#[derive(Drop)]
pub enum RequestStep {
    /// More bytes are needed, or the end of the input.
    More,
    /// The head is complete and passes all rules, and `100 Continue` is owed (RFC 9110 section
    /// 10.1.1). The body was not parsed yet. After the caller has written the interim response, it
    /// feeds the parser again; an empty slice is fine.
    Continue,
    /// The request is complete. A `RequestParser` drops bytes after it; in a `RequestStream` they wait.
    Whole(Request),
}

impl RequestStep {
    ghost use Rattle.bg_http_read.specs.RequestStates.{is_whole};

    /// Whether the request is complete.
    pub(crate) fn is_whole(&self) -> bool
        ensures { result ≡ is_whole self.now }
    {
        match self {
            RequestStep::Whole(_) => true,
            RequestStep::More | RequestStep::Continue => false,
        }
    }
}
