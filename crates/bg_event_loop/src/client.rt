//! The connections of clients.
ghost use Rattle.std.specs.Prelude.{◌≡◌, ◌&&◌, ◌||◌, None, Some, if◌then◌else◌, is_none};
ghost use Rattle.bg_client_side.specs.Stages.{has_left};
ghost use Rattle.bg_endpoint_side.specs.declared.outcome.GivingUp.TheVariants as why;

use crate::answer_progress::{AnswerProgress, LingeringClose};
use crate::events::Told;
use crate::large_requests::HeldRequest;
use crate::readiness::Readiness;
use crate::request_record::RequestRecord;
use crate::tries::Tries;
use bg_both_sides::{BothSides, Given};
use bg_endpoint_side::GivingUp;
use bg_forward::Route;
use bg_tunnel::Tunnel;
use bg_upload::{Upload, UploadFault};
use std::net::{IpAddr, TcpStream};

/// The connection of a client, with its socket.
pub(crate) struct Client {
    pub(crate) stream: TcpStream,
    /// Its address, if requests tell where they come from and the system gave it.
    pub(crate) address: Option<IpAddr>,
    pub(crate) ready: Readiness,
    /// Whether the set watches it.
    pub(crate) is_watched: bool,
    /// The connection, and the request that is inside.
    pub(crate) sides: BothSides,
    /// The seat of the request that is inside, or that is over and has not left yet.
    pub(crate) seat: Option<usize>,
    /// The key of the connection to an endpoint that the request has or awaits.
    pub(crate) endpoint: Option<usize>,
    /// The tunnel that the request became, if it has become one. The connection of `sides` has left then, but not its socket.
    pub(crate) tunnel: Option<Tunnel>,
    /// Its large request, if that is not passed on yet.
    pub(crate) held: Option<HeldRequest>,
    /// Its large request, if that is passed on, and why it is over by a fault.
    pub(crate) upload: Option<Box<Upload>>,
    pub(crate) upload_fault: Option<UploadFault>,
    /// The ports that were chosen for the request.
    pub(crate) tries: Option<Tries>,
    /// Whether only a reset tells a response that is cut from a whole one: the client of the request reads no chunks.
    pub(crate) needs_reset: bool,
    /// What the client was given for the request that is over, until that is logged.
    pub(crate) given: Option<Given>,
    /// What is kept of the request for the log.
    pub(crate) record: RequestRecord,
    /// Whether the client has ended its input.
    pub(crate) has_ended: bool,
    /// What was written of the last answer.
    pub(crate) answer: AnswerProgress,
    pub(crate) lingering: LingeringClose,
    /// Whether its request is paused: no byte of it is read.
    pub(crate) is_paused: bool,
}

impl Drop for Client {
    /// Drops the fields by one call, so that the proofs of what owns a value are short (CONTRIBUTING.md, "What a check costs").
    fn drop(self) {
        let Client {
            stream: _,
            address: _,
            ready: _,
            is_watched: _,
            sides: _,
            seat: _,
            endpoint: _,
            tunnel: _,
            held: _,
            upload: _,
            upload_fault: _,
            tries: _,
            needs_reset: _,
            given: _,
            record: _,
            has_ended: _,
            answer: _,
            lingering: _,
            is_paused: _,
        } = self;
    }
}

impl Client {
    /// A client that was accepted. Its socket may be ready, since no event of it came yet.
    pub(crate) fn new(stream: TcpStream, sides: BothSides, now: u64) -> Client {
        Client {
            stream,
            address: None,
            ready: Readiness {
                input: true,
                output: true,
                end: false,
                reset: false,
            },
            is_watched: false,
            sides,
            seat: None,
            endpoint: None,
            tunnel: None,
            held: None,
            upload: None,
            upload_fault: None,
            tries: None,
            needs_reset: false,
            given: None,
            record: RequestRecord::new(now),
            has_ended: false,
            answer: AnswerProgress::NONE,
            lingering: LingeringClose::NOT_BEGUN,
            is_paused: false,
        }
    }

    /// The port that was chosen last for the request.
    pub(crate) fn port(&self) -> Option<u16> {
        match &self.tries {
            Some(tries) => Some(tries.port()),
            None => None,
        }
    }

    /// What was dialled for the last request that entered.
    pub(crate) fn route(&self) -> Option<Route> {
        match &self.tries {
            Some(tries) => Some(tries.route()),
            None => None,
        }
    }

    /// Notes an event of its socket. If the connection is over, what came of a request before is still read.
    pub(crate) fn note(&mut self, told: Told) {
        self.ready.note(told);
        if self.ready.reset && !self.is_due() {
            self.sides.fail();
        }
    }

    /// Ends the connection at the end of a shutdown. A request that is inside goes on: its own timeouts end it. A tunnel is ended as
    /// it is served.
    pub(crate) fn end_by_shutdown(&mut self) {
        if !self.sides.client().is_inside() && self.tunnel.is_none() {
            self.record.note_dropped();
            self.sides.fail();
        }
    }

    /// Whether a step is due that waits for nothing.
    pub(crate) fn is_due(&self) -> bool {
        self.writes() && self.ready.output || self.reads() && self.ready.input
    }

    /// Whether it waits for its client, and not for its request.
    pub(crate) fn waits_for_client(&self) -> bool {
        self.writes()
            || self.passes_on()
            || self.tunnel.is_some()
            || self.passes_request_on()
            || self.sides.client().wants_read()
    }

    /// Whether the connection has left, and its socket is to be closed.
    pub(crate) fn has_left(&self) -> bool
        ensures { result ≡ (is_none self.now.tunnel && has_left self.now.sides.client.stage) }
    {
        self.tunnel.is_none() && self.sides.client().has_left()
    }

    /// Whether its client may take bytes now of a response that is passed on.
    pub(crate) fn may_pass_on(&self) -> bool {
        self.ready.output && self.passes_on()
    }

    /// Whether bytes of a response that is passed on are to be written.
    fn passes_on(&self) -> bool {
        self.sides.client().is_passing_on() && !self.sides.rest_to_client().is_empty()
    }

    /// Whether bytes are to be read.
    fn reads(&self) -> bool {
        self.sides.client().wants_read() && !self.is_paused
    }

    /// Whether something is to be written.
    pub(crate) fn writes(&self) -> bool {
        self.sides.client().owes_continue() || !self.sides.client().rest().is_empty()
    }

    /// Why the request that is inside is given up, if it is. `aborts_on_close` says whether it is if its client has ended its
    /// input.
    pub(crate) fn why_given_up(&self, is_given_up: bool, aborts_on_close: bool) -> Option<GivingUp>
        ensures { result ≡ (if self.now.sides.client.facts.has_failed || (aborts_on_close && self.now.ready.end)
            then Some why.ClientGone else if is_given_up then Some why.Drained else None) }
    {
        if self.sides.client().has_failed() || aborts_on_close && self.ready.end {
            Some(GivingUp::ClientGone)
        } else if is_given_up {
            Some(GivingUp::Drained)
        } else {
            None
        }
    }
}
