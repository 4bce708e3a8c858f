//! What is known of a port: its open requests, and its mark.
ghost use Rattle.std.specs.Prelude.{◌≡◌, ◌+◌, ◌-◌, min};
ghost use Rattle.bg_endpoints.specs.States.{marked, next_pause};

/// How long the first mark of a port lasts, in milliseconds.
const FIRST_PAUSE: u64 = 1_000;

/// How long a mark lasts at most, in milliseconds.
const LONGEST_PAUSE: u64 = 10_000;

/// What is known of a port. Moments are milliseconds from the start of the program.
#[derive(Clone, Copy, Drop, PartialEq, Eq)]
pub(crate) struct PortState {
    pub(crate) port: u16,
    /// The number of requests that are at the port.
    pub(crate) requests: u32,
    /// How long the last mark lasts; 0 if the port has answered since.
    pub(crate) pause: u64,
    /// The moment at which the mark ends.
    pub(crate) marked_until: u64,
}

impl PortState {
    /// Nothing is known of a port: it has no mark and no request.
    pub(crate) fn new(port: u16) -> PortState
        ensures { result ≡ record { port = port; requests = 0; pause = 0; marked_until = 0 } }
    {
        PortState {
            port,
            requests: 0,
            pause: 0,
            marked_until: 0,
        }
    }

    /// The same with one request more.
    pub(crate) fn with_request(self) -> PortState
        ensures { result ≡ record self { requests = min (self.requests + 1) u32.MAX } }
    {
        PortState {
            requests: self.requests.saturating_add(1),
            ..self
        }
    }

    /// The same with one request less.
    pub(crate) fn without_request(self) -> PortState
        ensures { result ≡ record self { requests = self.requests - 1 } }
    {
        PortState {
            requests: self.requests.saturating_sub(1),
            ..self
        }
    }

    /// The same with a mark that begins now. It lasts a second, or twice as long as the one before, up to ten
    /// seconds, if the port has not answered since. A mark that has not ended stays as it is, so that requests which
    /// fail together count once.
    pub(crate) fn marked(self, now: u64) -> PortState
        ensures { result ≡ marked self now }
    {
        if now < self.marked_until {
            return self;
        }
        let pause = pause_after(self.pause);
        PortState {
            pause,
            marked_until: now.saturating_add(pause),
            ..self
        }
    }

    /// The same without a mark.
    pub(crate) fn unmarked(self) -> PortState
        ensures { result ≡ record self { pause = 0; marked_until = 0 } }
    {
        PortState {
            pause: 0,
            marked_until: 0,
            ..self
        }
    }
}

/// How long a mark lasts, in milliseconds, after one that lasted `pause`; 0 if there was none.
fn pause_after(pause: u64) -> u64
    ensures { result ≡ next_pause pause }
{
    if pause == 0 {
        return FIRST_PAUSE;
    }
    pause.saturating_mul(2).min(LONGEST_PAUSE)
}
