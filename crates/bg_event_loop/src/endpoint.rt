//! Connections to endpoints.
ghost use Rattle.bg_event_loop.specs.Upgrades.{TakesBytes};

use crate::readiness::Readiness;
use crate::sockets::{Input, read, write};
use bg_both_sides::{BothSides, EndpointStep, Upgraded};
use std::net::TcpStream;

/// What a step at an endpoint gave.
#[derive(Drop)]
pub(crate) enum Progress {
    /// What it made of the request.
    Step(EndpointStep),
    /// The endpoint has accepted an upgrade. Both connections become a tunnel that begins with these bytes.
    Upgraded(Upgraded),
}

/// A connection to an endpoint, with its socket.
#[derive(Drop)]
pub(crate) struct Endpoint {
    pub(crate) stream: TcpStream,
    pub(crate) port: u16,
    pub(crate) ready: Readiness,
    /// The key of the client whose request is on it; `None` if no request is.
    pub(crate) client: Option<usize>,
}

impl Endpoint {
    /// Whether neither bytes nor the end of the input are there now. This reads a byte that is there, so the connection
    /// is of use only if there is none.
    pub(crate) fn is_silent(&self) -> bool {
        matches!(read(&self.stream, &mut [0]), Input::Nothing)
    }

    /// Whether a step is due of the request that is forwarded on it.
    pub(crate) fn is_due(&self, sides: &BothSides) -> bool {
        self.ready.input && sides.reads_endpoint() || self.may_write(sides)
    }

    fn may_write(&self, sides: &BothSides) -> bool {
        self.ready.output && !sides.piece_to_endpoint().is_empty()
    }

    /// Writes what is left of the request, or reads its response.
    pub(crate) fn serve(&mut self, sides: &mut BothSides, piece: &mut [u8], now: u64) -> Progress {
        if self.may_write(sides) {
            self.send(sides, now);
            Progress::Step(EndpointStep::GoesOn)
        } else {
            self.receive(sides, piece, now)
        }
    }

    /// Writes what the system takes of the request.
    fn send(&mut self, sides: &mut BothSides, now: u64) {
        let rest = sides.piece_to_endpoint();
        let most = rest.len();
        match write(&self.stream, rest) {
            Some(count) => {
                self.ready.note_write(count, most);
                sides.endpoint_wrote(count, now);
            }
            None => sides.endpoint_reads_no_more(now),
        }
    }

    /// Reads what came of the response.
    fn receive(&mut self, sides: &mut BothSides, piece: &mut [u8], now: u64) -> Progress {
        if self.ready.end {
            sides.endpoint_is_ending();
        }
        match read(&self.stream, piece) {
            Input::Came(count) => {
                self.ready.note_read(count, piece.len());
                take_bytes(sides, &piece[..count.min(piece.len())], now)
            }
            Input::Nothing => {
                self.ready.input = false;
                Progress::Step(EndpointStep::GoesOn)
            }
            Input::End => Progress::Step(sides.endpoint_ended(now)),
            Input::Failed => Progress::Step(sides.endpoint_failed(now)),
        }
    }
}

/// Gives the request bytes that came from its endpoint. They may be those by which the endpoint accepts an upgrade.
fn take_bytes(sides: &mut BothSides, bytes: &[u8], now: u64) -> Progress
    ensures { TakesBytes sides.old bytes.now now result sides.new }
{
    match sides.accept_upgrade(bytes, now) {
        Some(upgraded) => Progress::Upgraded(upgraded),
        None => Progress::Step(sides.receive(bytes, now)),
    }
}
