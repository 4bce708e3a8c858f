//! What a request that was forwarded comes to.
ghost use Rattle.std.specs.Prelude.{◌≡◌, IsTrue};
ghost use Rattle.bg_http.specs.Statuses.{is_refusal};
ghost use Rattle.bg_endpoint_side.specs.Outcomes.{fault_status, of_dial, of_giving_up, refused};

use bg_http::{Response, ResponseFault};

/// Why a request has no response.
#[derive(Clone, Copy, PartialEq, Eq, Debug, Drop)]
pub enum ForwardFault {
    /// The endpoint accepted no connection, or its connection failed.
    ConnectFailed,
    /// The dial timed out.
    ConnectTimeout,
    /// The response timed out, or the endpoint took nothing of the request, or it was silent for too long.
    ResponseTimeout,
    /// The response has this fault.
    Response(ResponseFault),
    /// The request was given up.
    GivenUp,
    /// The client has gone.
    ClientGone,
}

impl ForwardFault {
    /// The status with which the client is refused (RFC 9110 sections 15.6.3 and 15.6.4): 502 for a fault of the endpoint,
    /// and 503 if the request is given up, its client has gone, or an allocation failed.
    pub fn status(&self) -> u16
        ensures status { result ≡ fault_status self.now }
        ensures refusal { IsTrue (is_refusal result) }
    {
        match self {
            ForwardFault::Response(fault) => fault.status(),
            ForwardFault::ConnectFailed
            | ForwardFault::ConnectTimeout
            | ForwardFault::ResponseTimeout => 502,
            ForwardFault::GivenUp | ForwardFault::ClientGone => 503,
        }
    }
}

/// Why a dial gave no connection.
#[derive(Clone, Copy, Drop)]
pub enum DialFault {
    /// The endpoint accepted no connection.
    Failed,
    /// The dial timed out.
    TimedOut,
    /// The switch had no socket for it.
    NoSocket,
}

impl DialFault {
    /// The fault of the request.
    pub(crate) fn fault(self) -> ForwardFault
        ensures { result ≡ of_dial self }
    {
        match self {
            DialFault::TimedOut => ForwardFault::ConnectTimeout,
            DialFault::Failed | DialFault::NoSocket => ForwardFault::ConnectFailed,
        }
    }
}

/// Why a request is given up before its response.
#[derive(Clone, Copy, Drop)]
pub enum GivingUp {
    /// It drained for too long.
    Drained,
    /// Its client has gone.
    ClientGone,
}

impl GivingUp {
    /// The fault of the request.
    pub(crate) fn fault(self) -> ForwardFault
        ensures { result ≡ of_giving_up self }
    {
        match self {
            GivingUp::Drained => ForwardFault::GivenUp,
            GivingUp::ClientGone => ForwardFault::ClientGone,
        }
    }
}

/// What a request tells of its endpoint.
#[derive(Clone, Copy, PartialEq, Eq, Debug, Drop)]
pub enum Health {
    /// Nothing.
    Unknown,
    /// It has sent bytes.
    Answers,
    /// It accepted no connection, or it was silent for too long.
    Fails,
}

/// What a request that was forwarded comes to.
pub struct Outcome {
    /// The response, or why there is none.
    pub answer: Result<Response, ForwardFault>,
    /// Whether the connection is kept for another request. If not, it is closed.
    pub goes_back: bool,
    /// What it tells of the endpoint.
    pub health: Health,
}

impl Drop for Outcome {
    /// Drops the fields by one call, so that the proofs of what owns a value are short (CONTRIBUTING.md, "What a check costs").
    fn drop(self) {
        let Outcome {
            answer: _,
            goes_back: _,
            health: _,
        } = self;
    }
}

impl Outcome {
    /// There is no response, and the connection is closed.
    pub(crate) fn refused(fault: ForwardFault, health: Health) -> Outcome
        ensures { result ≡ refused fault health }
    {
        Outcome {
            answer: Err(fault),
            goes_back: false,
            health,
        }
    }

    /// The answer, whether the connection is kept, and what is told of the endpoint.
    pub fn into_parts(self) -> (Result<Response, ForwardFault>, bool, Health)
        ensures answer { result.0 ≡ self.answer }
        ensures goes_back { result.1 ≡ self.goes_back }
        ensures health { result.2 ≡ self.health }
    {
        let Outcome {
            answer,
            goes_back,
            health,
        } = self;
        (answer, goes_back, health)
    }
}
