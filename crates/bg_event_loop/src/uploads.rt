//! How the large requests of clients are passed on, and how they end.
ghost use Rattle.std.specs.Prelude.{◌≡◌, None, true};
ghost use Rattle.bg_event_loop.specs.Outcomes.{is_cut_by};

use crate::client::Client;
use crate::endpoint::Endpoint;
use crate::endpoint_ports::EndpointPorts;
use crate::endpoints::Endpoints;
use crate::event_loop::EventLoop;
use crate::moments::has_come;
use crate::outcome::Cause;
use crate::request_log::RequestLog;
use crate::sockets::{Input, read, reset, write};
use bg_both_sides::{BothSides, Given};
use bg_client_side::ClientSettings;
use bg_endpoint_side::{ForwardFault, GivingUp, Health};
use bg_http::ResponseFault;
use bg_upload::{Upload, UploadFault, UploadTerms};
use std::alloc::Global;

/// The number of steps of a large request in a row before others have their turn.
const STEPS_A_TURN: u32 = 16;

impl Client {
    /// Makes the steps of the large request that are due on the connection of the client, and on that of its endpoint. Gives whether
    /// one was due.
    fn pass_request_on(&mut self, endpoint: &mut Endpoint, piece: &mut [u8], now: u64) -> bool {
        let Some(mut upload) = self.upload.take() else {
            return false;
        };
        let is_client_due = self.serve_client_of(&mut upload, piece, now);
        let is_endpoint_due = self.serve_endpoint_of(&mut upload, endpoint, piece, now);
        self.upload = Some(upload);
        is_client_due || is_endpoint_due
    }

    /// Notes what a call of the large request came to.
    fn note_passed(&mut self, came_to: Result<(), UploadFault>) {
        if let Err(fault) = came_to
            && self.upload_fault.is_none()
        {
            self.upload_fault = Some(fault);
        }
    }

    /// Writes to the client what is there of the response, and reads what it sends of the request. Gives whether one of them was due.
    fn serve_client_of(&mut self, upload: &mut Upload, piece: &mut [u8], now: u64) -> bool {
        let writes = self.ready.output && !upload.to_client().is_empty();
        if writes {
            self.write_response_of(upload, now);
        }
        let reads = self.ready.input && upload.reads_client();
        if reads {
            self.read_request_of(upload, piece, now);
        }
        writes || reads
    }

    fn write_response_of(&mut self, upload: &mut Upload, now: u64) {
        let rest = upload.to_client();
        let most = rest.len();
        let is_response = !upload.is_continuing();
        let Some(count) = write(&self.stream, rest) else {
            self.answer.has_failed = true;
            self.note_passed(Err(UploadFault::Forward(ForwardFault::ClientGone)));
            return;
        };
        self.ready.note_write(count, most);
        if is_response {
            self.record.note_passed_on(count, now);
        }
        let taken = upload.client_took(count, now);
        self.note_passed(taken);
    }

    fn read_request_of(&mut self, upload: &mut Upload, piece: &mut [u8], now: u64) {
        match read(&self.stream, piece) {
            Input::Came(count) => {
                self.ready.note_read(count, piece.len());
                let bytes = &piece[..count.min(piece.len())];
                self.record.note_bytes(bytes.len(), now);
                let sent = upload.client_sent(bytes, now);
                self.note_passed(sent);
            }
            Input::Nothing => self.ready.input = false,
            Input::End => {
                self.has_ended = true;
                let ended = upload.client_ended();
                self.note_passed(ended);
            }
            Input::Failed => {
                self.note_passed(Err(UploadFault::Forward(ForwardFault::ClientGone)));
            }
        }
    }

    /// Writes to the endpoint what is there of the request, and reads what it sends of the response. Gives whether one of them was
    /// due.
    fn serve_endpoint_of(
        &mut self,
        upload: &mut Upload,
        endpoint: &mut Endpoint,
        piece: &mut [u8],
        now: u64,
    ) -> bool {
        let writes = endpoint.ready.output && !upload.to_endpoint().is_empty();
        if writes {
            let taken = write_request(endpoint, upload, now);
            self.note_passed(taken);
        }
        let reads = endpoint.ready.input && upload.reads_endpoint();
        if reads {
            let sent = read_response(endpoint, upload, piece, now);
            self.note_passed(sent);
        }
        writes || reads
    }

    /// Whether the client has sent its large request whole.
    fn has_sent_all(&self) -> bool {
        match &self.upload {
            Some(upload) => upload.is_body_whole(),
            None => false,
        }
    }

    /// Looks at the time: the large request is over if no byte has passed for too long.
    fn look_at_upload(&mut self, now: u64) {
        let late = match &self.upload {
            Some(upload) if upload.is_late(now) => Err(upload.late_fault()),
            _ => Ok(()),
        };
        self.note_passed(late);
    }

    /// Whether the large request is over: its response is whole, or it has a fault.
    fn is_upload_over(&self) -> bool {
        match &self.upload {
            Some(upload) => upload.is_whole() || self.upload_fault.is_some(),
            None => true,
        }
    }

    /// Gives the client what is left of the response to its large request, or a refusal, or cuts the response off. Gives what it was
    /// given, and what is told of the endpoint.
    fn answer_large(
        &mut self,
        alloc: Global,
        settings: ClientSettings,
        now: u64,
    ) -> (Cause, Health) {
        let fault = self.upload_fault.take();
        let Some(upload) = self.upload.take() else {
            let fault = fault.unwrap_or(UploadFault::Forward(ForwardFault::ConnectFailed));
            return (
                self.refuse_large(alloc, settings, fault, now),
                Health::Unknown,
            );
        };
        let health = health_after(&upload, fault);
        let cause = match fault {
            Some(fault) if upload.is_begun() => self.cut_large(alloc, settings, fault),
            Some(fault) => self.refuse_large(alloc, settings, fault, now),
            None => self.give_rest(alloc, settings, Box::into_inner(upload), now),
        };
        (cause, health)
    }

    /// Gives the client what is left of the response to its large request, which is whole.
    fn give_rest(
        &mut self,
        alloc: Global,
        settings: ClientSettings,
        upload: Upload,
        now: u64,
    ) -> Cause {
        let code = upload.code().unwrap_or(200);
        let was_whole = upload.is_body_whole();
        let is_begun = upload.is_begun();
        let memory = UploadFault::Forward(ForwardFault::Response(ResponseFault::OutOfMemory));
        match upload.into_rest(alloc) {
            Ok(rest) => {
                self.sides = BothSides::of_last(alloc, settings, rest, was_whole, now);
                Cause::Given(Given::Response(code))
            }
            Err(_) if is_begun => self.cut_large(alloc, settings, memory),
            Err(_) => self.refuse_large(alloc, settings, memory, now),
        }
    }

    /// Refuses the client for this fault of its large request, of whose response it took nothing. One that has gone, or that has not
    /// sent its request whole, is not answered.
    fn refuse_large(
        &mut self,
        alloc: Global,
        settings: ClientSettings,
        fault: UploadFault,
        now: u64,
    ) -> Cause {
        let (status, cause) = match fault {
            UploadFault::Request(fault) => (fault.status(), Cause::Fault(fault)),
            UploadFault::Forward(ForwardFault::ClientGone) => {
                (None, Cause::Given(Given::Refusal(ForwardFault::ClientGone)))
            }
            UploadFault::Forward(fault) => {
                (Some(fault.status()), Cause::Given(Given::Refusal(fault)))
            }
        };
        self.sides = match status {
            Some(status) => {
                BothSides::of_refusal(alloc, settings, self.sides.request(), status, now)
            }
            None => BothSides::of_none(alloc, settings),
        };
        cause
    }

    /// Cuts the response to its large request off, of which the client took a part: its connection is reset.
    fn cut_large(&mut self, alloc: Global, settings: ClientSettings, fault: UploadFault) -> Cause
        ensures cut { is_cut_by result ≡ true }
    {
        reset(&self.stream);
        self.sides = BothSides::of_none(alloc, settings);
        match fault {
            UploadFault::Request(fault) => Cause::CutByFault(fault),
            UploadFault::Forward(fault) => Cause::Given(Given::Cut(fault)),
        }
    }
}

/// What a large request that is over by this fault tells of its endpoint: it fails if it has sent nothing in its time.
fn health_after(upload: &Upload, fault: Option<UploadFault>) -> Health {
    match (fault, upload.health()) {
        (Some(UploadFault::Forward(ForwardFault::ResponseTimeout)), Health::Unknown) => {
            Health::Fails
        }
        (_, health) => health,
    }
}

/// Why a large request has no response that is given up for this reason.
fn fault_of(why: GivingUp) -> ForwardFault {
    match why {
        GivingUp::Drained => ForwardFault::GivenUp,
        GivingUp::ClientGone => ForwardFault::ClientGone,
    }
}

/// Writes what the endpoint takes of a large request. One that reads no more of it may still send its response.
fn write_request(
    endpoint: &mut Endpoint,
    upload: &mut Upload,
    now: u64,
) -> Result<(), UploadFault> {
    let rest = upload.to_endpoint();
    let most = rest.len();
    match write(&endpoint.stream, rest) {
        Some(count) => {
            endpoint.ready.note_write(count, most);
            upload.endpoint_took(count, now)
        }
        None => {
            upload.endpoint_reads_no_more();
            Ok(())
        }
    }
}

/// Reads what came of the response to a large request.
fn read_response(
    endpoint: &mut Endpoint,
    upload: &mut Upload,
    piece: &mut [u8],
    now: u64,
) -> Result<(), UploadFault> {
    match read(&endpoint.stream, piece) {
        Input::Came(count) => {
            endpoint.ready.note_read(count, piece.len());
            upload.endpoint_sent(&piece[..count.min(piece.len())], now)
        }
        Input::Nothing => {
            endpoint.ready.input = false;
            Ok(())
        }
        Input::End => upload.endpoint_ended(),
        Input::Failed => Err(UploadFault::Forward(ForwardFault::ConnectFailed)),
    }
}

impl<P: EndpointPorts> Endpoints<'_, P> {
    /// Begins to pass a large request on, whose dial is complete.
    pub(crate) fn begin_upload(&self, client: &mut Client, now: u64) {
        let settings = self.settings();
        let Some(limits) = settings.uploads else {
            return;
        };
        let terms = UploadTerms {
            port: client.port().unwrap_or(0),
            owes_continue: false,
            window: limits.window,
            most_body: limits.most_body,
            most_response: limits.most_response,
            silence_millis: settings.timeouts.idle,
        };
        client.record.note_connected(false);
        client.begin_upload(self.alloc, terms, now);
    }

    /// Passes on what is there of the large request of a client, and of its response. Gives whether steps are due still.
    fn pass_request_on(&mut self, client: &mut Client, piece: &mut [u8], now: u64) -> bool {
        for _ in 0..STEPS_A_TURN {
            if client.is_upload_over() {
                return false;
            }
            let Some(endpoint) = self.used_by(client) else {
                client.note_passed(Err(UploadFault::Forward(ForwardFault::ConnectFailed)));
                return false;
            };
            if !client.pass_request_on(endpoint, piece, now) {
                return false;
            }
        }
        true
    }

    /// The large request of a client is over: closes the connection to its endpoint, which no other request is given, and counts the
    /// request at its port no longer.
    fn end_upload(&mut self, client: &mut Client, health: Health)
        ensures unused { client.new.endpoint ≡ None }
        ensures kept { self.new.kept ≡ self.old.kept }
    {
        self.close_used_by(client);
        if let Some(tries) = &mut client.tries {
            tries.leave(self.ports, health);
        }
    }
}

impl<'a, P: EndpointPorts, L: RequestLog> EventLoop<'a, P, L> {
    /// Makes the steps of the large request of a client that are due, and ends it if its response is whole, if it has a fault, if it
    /// is given up, at the end of a shutdown, or if no byte has passed for too long. Gives its seat if it is over.
    pub(crate) fn serve_upload(&mut self, key: usize, is_given_up: bool) -> Option<usize> {
        let is_given_up = is_given_up || has_come(self.closes_at, self.now);
        let client = self.clients.get_mut(key)?;
        let aborts_on_close = self.settings.aborts_on_close && client.has_sent_all();
        if let Some(why) = client.why_given_up(is_given_up, aborts_on_close) {
            client.note_passed(Err(UploadFault::Forward(fault_of(why))));
        }
        let piece = self.piece.as_mut_slice();
        let is_due = self.endpoints.pass_request_on(client, piece, self.now);
        client.look_at_upload(self.now);
        if client.is_upload_over() {
            return self.finish_upload(key);
        }
        if is_due {
            // others have their turn
            self.make_due(key);
        }
        None
    }

    /// Ends the large request of a client, answers its client, logs it, and frees its seat, which is given.
    fn finish_upload(&mut self, key: usize) -> Option<usize> {
        let client = self.clients.get_mut(key)?;
        let seat = client.seat.take()?;
        let (cause, health) = client.answer_large(self.alloc, self.settings.clients, self.now);
        self.endpoints.end_upload(client, health);
        let fed = client.end_request(self.log, cause, self.now);
        self.queue.leave(seat);
        self.note_fed(key, fed);
        Some(seat)
    }
}
