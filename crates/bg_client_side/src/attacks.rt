//! Clients that send well, badly or not at all, and clients that wait for seats.

mod events;
mod passing;
mod pieces;
mod seats;

use crate::client_connection::ClientConnection;
use crate::facts::ClientSettings;
use crate::stage::Stage;
use bg_http::{Persistence, RefusalBody, RequestFault};

/// A connection is kept for three requests.
const SETTINGS: ClientSettings = ClientSettings {
    persistence: Persistence::Keep,
    most_requests: 3,
    request_millis: 10_000,
    idle_millis: 60_000,
    refusal_body: RefusalBody::Empty,
    keeps_arriving: true,
};

/// Where a connection is after its events.
#[derive(Clone, Copy, PartialEq, Eq, Debug, Drop)]
enum Where {
    Idle,
    Reading,
    Continuing,
    Waiting,
    Inside,
    PassingOn,
    Refused(RequestFault),
    Answering,
    Lingering,
    Left,
}

fn where_of(connection: &ClientConnection) -> Where {
    match &connection.stage {
        Stage::Idle => Where::Idle,
        Stage::Reading => Where::Reading,
        Stage::Continuing => Where::Continuing,
        Stage::Waiting(_) => Where::Waiting,
        Stage::Inside => Where::Inside,
        Stage::PassingOn(_) => Where::PassingOn,
        Stage::Refused(fault) => Where::Refused(*fault),
        Stage::Answering(_) => Where::Answering,
        Stage::Lingering(_) => Where::Lingering,
        Stage::Left => Where::Left,
    }
}
