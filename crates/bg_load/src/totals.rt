//! What connections of event loops come to.
ghost use Rattle.std.specs.Prelude.{◌≡◌, ◌+◌, ◌<◌, ◌≤◌, ◌^◌, None};
ghost use Rattle.bg_load.specs.Totals.{CanChange, IsChanged, activity_totals, load_totals, place_totals};
ghost use Rattle.bg_load.specs.Totals.{request_weight, response_weight};

use crate::activity::Activity;
use crate::connection::Connection;
use crate::load::Load;

/// The number of bytes of a request that may be in memory: its head, its body, and what waits of a chunk's line or of
/// trailers. If more bytes came, they are lines of chunks, which are not kept.
const MOST_OF_REQUEST: u64 = (1 << 20) + (1 << 16);

/// The greatest memory, in bytes, that is counted for a response.
const MOST_OF_RESPONSE: u64 = 1 << 40;

/// What the connections of an event loop, or of several, come to, or what one of them adds.
#[derive(Clone, Copy, PartialEq, Eq, Debug, Drop)]
pub struct Totals {
    /// The number of connections.
    pub connections: u64,
    /// The number of those that hold a seat.
    pub inside: u64,
    /// The memory, in bytes, that is counted for requests that are arriving or wait for a seat: each byte twice, at most
    /// 2,228,224 for a request.
    pub request_bytes: u64,
    /// The part of `request_bytes` of requests that wait for a seat.
    pub waiting_bytes: u64,
    /// The memory of responses, in bytes, at most 2 to the power of 40 for each.
    pub response_bytes: u64,
    /// The number of requests that are paused.
    pub paused: u64,
}

/// A total after one of its parts has changed.
fn changed(total: u64, before: u64, after: u64) -> u64
    requires part { before ≤ total }
    requires fits { total + after < 2 ^ 64 }
    ensures { result + before ≡ total + after }
{
    total - before + after
}

impl Totals {
    /// What no connections come to.
    pub const NONE: Totals = Totals {
        connections: 0,
        inside: 0,
        request_bytes: 0,
        waiting_bytes: 0,
        response_bytes: 0,
        paused: 0,
    };

    /// What one connection adds.
    const ONE: Totals = Totals {
        connections: 1,
        ..Totals::NONE
    };

    /// What a connection adds by what it does.
    fn of_activity(activity: Activity) -> Totals
        ensures { result ≡ activity_totals activity }
    {
        match activity {
            Activity::Idle | Activity::Lingering { .. } => Totals::ONE,
            Activity::Arriving(bytes) => Totals {
                request_bytes: request_weight(bytes),
                ..Totals::ONE
            },
            Activity::Waiting(bytes) => Totals {
                request_bytes: request_weight(bytes),
                waiting_bytes: request_weight(bytes),
                ..Totals::ONE
            },
            Activity::Inside => Totals {
                inside: 1,
                ..Totals::ONE
            },
            Activity::Answering { weight, written: _ } => Totals {
                response_bytes: response_weight(weight),
                ..Totals::ONE
            },
        }
    }

    /// What a connection with this load adds.
    fn of_load(load: Load) -> Totals
        ensures { result ≡ load_totals load }
    {
        Totals {
            paused: u64::from(load.is_paused),
            ..Totals::of_activity(load.activity)
        }
    }

    /// What a place adds.
    pub(crate) fn of_place(place: Option<Connection>) -> Totals
        ensures { result ≡ place_totals place }
    {
        match place {
            Some(connection) => Totals::of_load(connection.load),
            None => Totals::NONE,
        }
    }

    /// The totals after one of the places has changed.
    pub(crate) fn replaced(self, before: Totals, after: Totals) -> Totals
        requires { CanChange self before after }
        ensures { IsChanged self before after result }
    {
        Totals {
            connections: changed(self.connections, before.connections, after.connections),
            inside: changed(self.inside, before.inside, after.inside),
            request_bytes: changed(
                self.request_bytes,
                before.request_bytes,
                after.request_bytes,
            ),
            waiting_bytes: changed(
                self.waiting_bytes,
                before.waiting_bytes,
                after.waiting_bytes,
            ),
            response_bytes: changed(
                self.response_bytes,
                before.response_bytes,
                after.response_bytes,
            ),
            paused: changed(self.paused, before.paused, after.paused),
        }
    }
}

/// The memory, in bytes, that is counted for a request of which so many bytes came.
fn request_weight(count: u64) -> u64
    ensures { result ≡ request_weight count }
{
    count.min(MOST_OF_REQUEST) * 2
}

/// The memory, in bytes, that is counted for a response.
fn response_weight(weight: u64) -> u64
    ensures { result ≡ response_weight weight }
{
    weight.min(MOST_OF_RESPONSE)
}
