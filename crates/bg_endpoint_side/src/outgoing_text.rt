//! The text of a request that is written to an endpoint.
ghost use Rattle.std.specs.Prelude.{◌≡◌, ◌++◌, [], length};
ghost use Rattle.bg_http.specs.Codings.{is_empty};
ghost use Rattle.bg_endpoint_side.specs.OutgoingTexts.{IsFirstPiece, uncopied_body as uncopied_of};

use crate::uncopied::uncopied_body;
use bg_http::Request;
use bg_http_read::GhostRequest;
use std::marker::Model;

/// The text of a request: what was written of it to the connection, and what is still to be written. Together they are
/// the text. Its end is not copied: who writes it lends it.
#[derive(Drop)]
pub(crate) struct OutgoingText {
    /// The beginning of the text.
    front: Vec<u8>,
    /// The request whose body ends the text.
    request: GhostRequest,
    /// The number of bytes of the end that is not copied.
    uncopied_count: usize,
    /// The number of bytes that were written.
    written: usize,
}

impl Model for OutgoingText {
    ghost use Rattle.std.specs.Prelude.{◌≡◌, ◌≤◌, ◌<◌, ◌+◌, ◌^◌, ◌++◌, drop, length, take, vec_len};
    ghost use Rattle.bg_endpoint_side.specs.OutgoingTexts.{Outgoing, uncopied_body};

    ghost Value = { Outgoing };

    ghost view = { λ t. record {
      sent = take t.written (t.front.items ++ uncopied_body t.request.value);
      rest = drop t.written (t.front.items ++ uncopied_body t.request.value);
      uncopied = uncopied_body t.request.value;
    } };

    ghost invariant = { λ t. (t.uncopied_count ≡ length (uncopied_body t.request.value))
        × (t.uncopied_count < 2 ^ 63) × (t.written ≤ vec_len t.front + t.uncopied_count) };
}

impl OutgoingText {
    ghost use Rattle.bg_endpoint_side.specs.OutgoingTexts.{restarted, with_written};

    /// A text of which nothing was written: these bytes and then what is not copied of a request.
    pub(crate) fn new(front: Vec<u8>, request: &Request) -> OutgoingText
        ensures { result ≡ record {
          sent = [];
          rest = front.items ++ uncopied_of request.now;
          uncopied = uncopied_of request.now;
        } }
    {
        OutgoingText {
            front,
            request: GhostRequest::of(request),
            uncopied_count: uncopied_body(request).len(),
            written: 0,
        }
    }

    /// The text begins with these bytes from now on. Its end stays, and nothing of it was written.
    pub(crate) fn begin_with(&mut self, front: Vec<u8>)
        ensures { self.new ≡ record {
          sent = [];
          rest = front.items ++ self.old.uncopied;
          uncopied = self.old.uncopied;
        } }
    {
        self.front = front;
        self.written = 0;
    }

    /// A piece of what is still to be written. `uncopied` is the end of the text, which is not copied.
    pub(crate) fn piece<'a>(&'a self, uncopied: &'a [u8]) -> &'a [u8]
        requires { uncopied.now ≡ self.now.uncopied }
        ensures { IsFirstPiece self.now.rest result.now }
    {
        if self.written < self.front.len() {
            &self.front[self.written..]
        } else {
            &uncopied[self.written - self.front.len()..]
        }
    }

    /// The number of bytes that are still to be written.
    fn left(&self) -> usize
        ensures { result ≡ length self.now.rest }
    {
        self.front.len() + self.uncopied_count - self.written
    }

    /// Whether the whole text was written.
    pub(crate) fn is_sent(&self) -> bool
        ensures { result ≡ is_empty self.now.rest }
    {
        self.left() == 0
    }

    /// Whether nothing was written.
    pub(crate) fn is_unsent(&self) -> bool
        ensures { result ≡ is_empty self.now.sent }
    {
        self.written == 0
    }

    /// The same after so many bytes more were written, at most the rest.
    pub(crate) fn wrote(&mut self, count: usize)
        ensures { self.new ≡ with_written self.old count }
    {
        self.written += count.min(self.left());
    }

    /// Nothing was written of it to another connection.
    pub(crate) fn restart(&mut self)
        ensures { self.new ≡ restarted self.old }
    {
        self.written = 0;
    }
}
