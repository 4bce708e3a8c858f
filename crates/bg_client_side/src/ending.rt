//! How connections end.
ghost use Rattle.std.specs.Prelude.{◌≡◌};
ghost use Rattle.bg_client_side.specs.Clients.{closing, discarded_at, ended, failed_at, looked};

use crate::client_connection::ClientConnection;
use crate::stage::{Lingering, MOST_DISCARDED, Stage};

impl ClientConnection {
    /// Notes that the client ended its input. A connection on which no request is whole leaves without an answer, and so
    /// does one in its lingering close. One whose request waits, is inside or is answered stays: its client may have shut
    /// its writing side alone (RFC 9112 section 9.6).
    pub fn end_input(&mut self)
        ensures { self.new ≡ ended self.old }
    {
        self.facts.has_ended = true;
        if self.stage.ends_with_input() {
            self.stage = Stage::Left;
        }
    }

    /// Notes that a shutdown has begun. An idle connection leaves; another one goes on until the answer to its request,
    /// which is its last.
    pub fn begin_closing(&mut self)
        ensures { self.new ≡ closing self.old }
    {
        self.facts.is_closing = true;
        if self.is_idle() {
            self.stage = Stage::Left;
        }
    }

    /// Notes that the connection was reset, that a read or a write on it failed, or that its caller closes it. It leaves,
    /// unless its request is inside: then it leaves with the answer to its request, or as its response is cut.
    pub fn fail(&mut self)
        ensures { self.new ≡ failed_at self.old.stage self.old }
    {
        if self.is_inside() {
            self.facts.has_failed = true;
        } else {
            self.stage = Stage::Left;
        }
    }

    /// Notes that so many bytes were discarded in a lingering close. The connection leaves once they are 16 MiB.
    pub fn discarded(&mut self, count: u64)
        ensures { self.new ≡ discarded_at self.old.stage count self.old }
    {
        if let Stage::Lingering(lingering) = self.stage {
            let passed = lingering.passed.saturating_add(count);
            self.stage = if passed < MOST_DISCARDED {
                Stage::Lingering(Lingering {
                    passed,
                    ..lingering
                })
            } else {
                Stage::Left
            };
        }
    }

    /// Notes as failed a connection whose timeout has passed: that of an idle connection, of a request, of an answer, of a
    /// response of which bytes wait for the client, or of a lingering close. So it leaves, unless its response is passed
    /// on. A request that waits has none here, and one that is inside only while bytes of its response wait.
    pub fn look(&mut self, now: u64)
        ensures { self.new ≡ looked self.old now }
    {
        if self.stage.has_timeout() && self.facts.until <= now {
            self.fail();
        }
    }
}
