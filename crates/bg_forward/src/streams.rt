//! The sources of client connections.
ghost use Rattle.std.specs.Prelude.{◌≡◌, false, ℕ, IfOk, IfSome, IsTrue, List, Option, Some, ⊤};
ghost use Rattle.std.specs.Io.KnownBytes.{Keeps};
ghost use Rattle.bg_forward.specs.Clients.{IsReceived, IsServed};
ghost use Rattle.bg_forward.specs.Connections.{MayEnd};
ghost use Rattle.bg_http.specs.declared.refusal.RefusalBody.{RefusalBody};

use crate::serving::Served;
use bg_http::{MemoryStream, RefusalBody, Request, RequestFault};
use bg_revisions::Service;
use std::io;
use std::io::Write;

/// A connection of a client whose request was received. Its answer is written to it, and it says whether
/// the client still waits for the answer.
pub trait ClientStream: Write {
    /// The fact that holds of a client that was found to have gone.
    ghost gone: { Self → Type 0 } = { λ _. ⊤ };

    /// Whether the client has closed or reset its connection, so that no answer can reach it. A
    /// client that has only shut its writing side has not gone: it still reads (RFC 9112 section
    /// 9.6).
    ///
    /// It does not change the bytes that were written. It is called before each read of an endpoint's
    /// response, so it must not wait. The implementation decides how often it asks the system.
    fn has_gone(&mut self) -> bool
        ensures kept { Keeps (Self.contents self.old) (Self.contents self.new) }
        ensures gone { IsTrue result → gone self.new };
}

/// A client in memory has never gone.
impl ClientStream for MemoryStream<'_> {
    ghost gone = { λ _. ⊥ };

    fn has_gone(&mut self) -> bool
        ensures left { Keeps (Some self.old.input.now) (Some self.new.input.now) }
        ensures kept { Keeps (Some self.old.written.items) (Some self.new.written.items) }
        ensures gone { IsTrue result → ⊥ }
        ensures stays { result ≡ false }
    {
        false
    }
}

/// A client whose request is over.
#[derive(Drop)]
pub struct Arrived<S, C> {
    /// The client's connection.
    pub stream: S,
    /// Who sent the request.
    pub sender: C,
    /// The request, or its fault.
    pub received: Result<Request, RequestFault>,
}

/// Gives the clients whose requests are over, and ends their connections. All workers share it.
pub trait Accept {
    /// A connection of a client.
    type Stream: ClientStream + Drop;

    /// Who sent a request. It stays the same while the client's stream is written to.
    type Sender: Drop;

    /// The bytes that a sender has sent on its connection; `None` if they are not known, as over a socket.
    ghost sent: { Self.Sender → Option (List ℕ) };

    /// What the refusals of all its clients have as their bodies.
    ghost refusals: { Self → RefusalBody };

    /// What the refusals of its clients have as their bodies. It is always the same.
    fn refusal_body(&self) -> RefusalBody
        ensures { result ≡ refusals self.now };

    /// Waits for the next client of a service whose request is over: it was received whole, it has a
    /// fault, or the client ended it. `None` means that no further client comes; the worker that gets
    /// it asks no more. An error counts as one connection.
    ///
    /// What was received is what `read_request` gives for the bytes that the client sent, and nothing but
    /// `100 Continue` was written to the client, if it was owed.
    fn accept(&self, service: Service) -> io::Result<Option<Arrived<Self::Stream, Self::Sender>>>
        ensures received { IfOk result (λ next. IfSome next (λ client. IsReceived (sent client.sender)
            (Self.Stream.contents client.stream) client.received)) };

    /// Ends the connection of a client after its seat is out. `client` is what `accept` gave, after
    /// its answer was written, and `served` is the outcome of the connection. If no request entered,
    /// the client may still be sending it.
    ///
    /// The end is possible for what was received. If the bytes that the client sent are known, this is its whole
    /// connection: what was received of them, and exactly what was written to it, if no write failed. A refusal has the
    /// body that `refusal_body` gives.
    fn close(&self, client: Arrived<Self::Stream, Self::Sender>, served: &Served)
        requires may_end { MayEnd client.received served.now.entered served.now.end }
        requires connection { IsServed (refusals self.now) (sent client.sender) (Self.Stream.contents client.stream)
            client.received served.now.entered served.now.end };
}
