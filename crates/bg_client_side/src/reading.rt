//! How a connection reads requests.
ghost use Rattle.std.specs.Prelude.{◌≡◌, true};
ghost use Rattle.bg_client_side.specs.Clients.{Continues, Feeds, ReadsOn, begun, rests};
ghost use Rattle.bg_client_side.specs.Stages.{reads};

use crate::client_connection::ClientConnection;
use crate::facts::later;
use crate::stage::Stage;
use crate::terms::asks_to_keep;
use bg_http::RequestFault;
use bg_http_read::RequestStep;

/// What bytes made of a connection.
#[derive(Clone, Copy, PartialEq, Eq, Debug, Drop)]
pub enum Fed {
    /// No byte was read: the connection is not at a stage that reads a request, or a part of an answer is still to be
    /// written.
    NotReading,
    /// More bytes are needed. If the client has ended its input, the connection has left.
    More,
    /// As `More`, and `100 Continue` is to be written (RFC 9110 section 10.1.1). Then `note_continued` goes on.
    OwesContinue,
    /// A request is whole, and waits for a seat.
    Whole,
    /// What came is no request. A refusal with the status of the fault (`RequestFault::status`) is to be given as its
    /// answer.
    Refused(RequestFault),
}

impl ClientConnection {
    /// Adds bytes that came. The requests of the connection do not depend on how its bytes are cut into pieces
    /// (`laws::the_requests_are_those_of_the_bytes`). The faults are those of `RequestStream::feed`.
    pub fn feed(&mut self, bytes: &[u8], now: u64) -> Fed
        ensures { Feeds self.old bytes.now now result self.new }
    {
        if !self.stage.reads() {
            return Fed::NotReading;
        }
        self.begin_request(bytes, now);
        self.read_on(bytes)
    }

    /// Notes that `100 Continue` was written, and goes on with the bytes that wait.
    pub fn note_continued(&mut self) -> Fed
        ensures { Continues self.old result self.new }
    {
        if !self.owes_continue() {
            return Fed::NotReading;
        }
        self.stage = Stage::Reading;
        self.read_on(&[])
    }

    /// The first byte of a request on an idle connection begins the timeout of the request.
    fn begin_request(&mut self, bytes: &[u8], now: u64)
        ensures { self.new ≡ begun self.old bytes.now now }
    {
        if self.is_idle() && !bytes.is_empty() {
            self.stage = Stage::Reading;
            self.facts.until = later(now, self.facts.settings.request_millis);
        }
    }

    /// Reads what came, at a stage that reads.
    pub(crate) fn read_on(&mut self, bytes: &[u8]) -> Fed
        requires { reads self.old.stage ≡ true }
        ensures { ReadsOn self.old bytes.now result self.new }
    {
        match self.stream.feed(bytes) {
            Ok(RequestStep::More) => {
                self.arriving.add(bytes);
                self.rest_now();
                Fed::More
            }
            Ok(RequestStep::Continue) => {
                self.arriving.add(bytes);
                self.stage = Stage::Continuing;
                Fed::OwesContinue
            }
            Ok(RequestStep::Whole(request)) => {
                self.arriving.begin(self.stream.unread());
                self.facts.is_to_stay = asks_to_keep(&request);
                self.stage = Stage::Waiting(request);
                Fed::Whole
            }
            Err(fault) => {
                self.arriving.add(bytes);
                self.stage = Stage::Refused(fault);
                Fed::Refused(fault)
            }
        }
    }

    /// No request is whole. The connection leaves if no byte can come, or if it is idle in a shutdown.
    fn rest_now(&mut self)
        ensures { self.new ≡ rests self.old }
    {
        if self.facts.has_ended || self.is_idle() && self.facts.is_closing {
            self.stage = Stage::Left;
        }
    }
}
