//! How a response is passed on as it comes.
ghost use Rattle.std.specs.Prelude.{◌≡◌};
ghost use Rattle.bg_client_side.specs.Clients.{begun_passing_on, cut_off, may_pass_on, passed_at};
ghost use Rattle.bg_client_side.specs.Stages.{is_passing_on};

use crate::client_connection::ClientConnection;
use crate::facts::later;
use crate::stage::{PassingOn, STILL_MILLIS, Stage};
use bg_http::Persistence;

impl ClientConnection {
    /// Begins to pass on the response to the request that is inside: its head is there, and what comes of it is written to the
    /// client by the caller, which holds its bytes and tells what was written ([`Self::passed_on`]). The response ends by
    /// [`Self::answer`] with the rest of it, or by [`Self::cut`]. Its `persistence` is that of the head: the connection goes
    /// on after the response only if the head says so, and if [`Self::persistence`] does. Gives whether it begins: it does if
    /// the request was handed out, nothing of a response was passed on, and the connection has not failed. Otherwise nothing
    /// changes.
    pub fn begin_passing_on(&mut self, persistence: Persistence, now: u64) -> bool
        ensures begun { result ≡ may_pass_on self.old }
        ensures new { self.new ≡ begun_passing_on persistence now self.old }
    {
        if !self.stage.is_handed_out() || self.facts.has_failed {
            return false;
        }
        let passing = PassingOn {
            goes_on: self.goes_on_after(persistence),
            waits: true,
        };
        self.facts.until = later(now, STILL_MILLIS);
        self.stage = Stage::PassingOn(passing);
        true
    }

    /// Notes that so many bytes of the response that is passed on were written to the client, and whether more of it wait for
    /// the client now. While bytes wait, the client may take nothing for 30 seconds; the whole response has no timeout. If no
    /// response is passed on, nothing changes.
    pub fn passed_on(&mut self, count: usize, waits: bool, now: u64)
        ensures { self.new ≡ passed_at self.old.stage count waits now self.old }
    {
        if let Stage::PassingOn(passing) = self.stage {
            self.facts.until = passing.until_passed(count, waits, self.facts.until, now);
            self.stage = Stage::PassingOn(PassingOn { waits, ..passing });
        }
    }

    /// Notes that the response that is passed on does not come to its end: it is malformed or cut off, or its request is given
    /// up. The connection leaves at once, and its caller resets the socket, so that the client sees that the response is not
    /// whole. Gives whether a response was passed on; otherwise nothing changes.
    pub fn cut(&mut self) -> bool
        ensures was { result ≡ is_passing_on self.old.stage }
        ensures new { self.new ≡ cut_off self.old }
    {
        let was = self.stage.is_passing_on();
        if was {
            self.stage = Stage::Left;
        }
        was
    }
}
