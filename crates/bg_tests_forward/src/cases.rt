//! Connections with an expected end, a row each: what is forwarded and answered byte for byte, and what is refused, is
//! interrupted or fails. The refusals have one row for each status: bg_tests_http has the messages.

use crate::connections::{Outcome, Receiving, SOUND, Setting};
use crate::fakes::{Interruptions, Pace, STEADY};
use crate::messages::{
    CHUNKS_ON, EXPECTS, EXPECTS_ANSWERED, EXPECTS_ON, EXPECTS_REFUSED, Expected, GET_ON, expect,
    refusal,
};
use bg_forward::End;
use bg_revisions::Service;
use std::alloc::Global;
use std::process::Abort;
use std::sync::Wait;
use std::test::Fail;

/// A connection, and its expected outcome.
pub struct Case {
    pub setting: Setting<'static>,
    end: End,
    /// The bytes that are written to the client. With the end `Refused` and no bytes it is the refusal with that status.
    written: &'static str,
    /// The number of calls of the seat: 2 if the request enters, else 0.
    calls: u64,
    /// The number of connections to endpoints that were opened, and of those that got the expected bytes.
    dialled: u64,
    forwarded: u64,
    /// The number of writes to the client, where the case is about it.
    writes: Option<u64>,
}

/// A connection on which nothing fails.
const ANSWERED: Case = Case {
    setting: SOUND,
    end: End::Answered(200),
    written: CHUNKS_ON,
    calls: 2,
    dialled: 1,
    forwarded: 1,
    writes: None,
};

/// A request that is refused before it enters.
const NOT_ENTERED: Case = Case {
    end: End::Refused(503),
    written: "",
    calls: 0,
    dialled: 0,
    forwarded: 0,
    ..ANSWERED
};

/// A request that enters and gets no answer of an endpoint, which took the request.
const BAD_GATEWAY: Case = Case {
    end: End::Refused(502),
    written: "",
    ..ANSWERED
};

/// A head with 65 fields.
const MANY_FIELDS: &str = "GET / HTTP/1.1\r\nHost: x\r\n\
    A:\nA:\nA:\nA:\nA:\nA:\nA:\nA:\nA:\nA:\nA:\nA:\nA:\nA:\nA:\nA:\nA:\nA:\nA:\nA:\nA:\nA:\nA:\nA:\nA:\nA:\nA:\nA:\nA:\nA:\nA:\nA:\n\
    A:\nA:\nA:\nA:\nA:\nA:\nA:\nA:\nA:\nA:\nA:\nA:\nA:\nA:\nA:\nA:\nA:\nA:\nA:\nA:\nA:\nA:\nA:\nA:\nA:\nA:\nA:\nA:\nA:\nA:\nA:\nA:\n\r\n";

/// One byte at a time, and an interruption before each.
const BYTE_BY_BYTE: Pace = Pace {
    most: 1,
    interruptions: Interruptions::EverySecond,
    ..STEADY
};

const EVERY_READ_INTERRUPTED: Pace = Pace {
    interruptions: Interruptions::EveryRead,
    ..STEADY
};

const FAILS_TO_FLUSH: Pace = Pace {
    flush_fails: true,
    ..STEADY
};

const FAILS_TO_BE_WRITTEN: Pace = Pace {
    failing_write: Some(0),
    ..STEADY
};

const FAILS_TO_BE_READ: Pace = Pace {
    failing_read: Some(0),
    ..STEADY
};

/// A request that waits for `100 Continue`.
const WAITING: Setting<'static> = Setting {
    name: "100 Continue",
    request: EXPECTS,
    forwarded: EXPECTS_ON,
    ..SOUND
};

pub static CASES: [Case; 33] = [
    ANSWERED,
    Case {
        setting: Setting {
            name: "a body of version 1.0",
            request: "POST /p HTTP/1.0\r\nContent-Length: 2\r\n\r\nhi",
            forwarded: "POST /p HTTP/1.1\r\nHost: 127.0.0.1:9002\r\nVia: 1.0 bg-switch\r\nContent-Length: 2\r\nConnection: close\r\n\r\nhi",
            ..SOUND
        },
        ..ANSWERED
    },
    Case {
        setting: Setting {
            name: "HEAD",
            request: "HEAD /a HTTP/1.1\r\nHost: x\r\n\r\n",
            forwarded: "HEAD /a HTTP/1.1\r\nHost: x\r\nVia: 1.1 bg-switch\r\nConnection: close\r\n\r\n",
            response: "HTTP/1.1 200 OK\r\nContent-Length: 10\r\n\r\n",
            ..SOUND
        },
        written: "HTTP/1.1 200 OK\r\nContent-Length: 10\r\nConnection: close\r\n\r\n",
        ..ANSWERED
    },
    Case {
        setting: WAITING,
        written: EXPECTS_ANSWERED,
        ..ANSWERED
    },
    Case {
        setting: Setting {
            name: "204 after an interim response",
            response: "HTTP/1.1 100 Continue\r\n\r\nHTTP/1.1 204 No Content\r\nContent-Length: 5\r\n\r\n",
            ..SOUND
        },
        end: End::Answered(204),
        written: "HTTP/1.1 204 No Content\r\nConnection: close\r\n\r\n",
        ..ANSWERED
    },
    Case {
        setting: Setting {
            name: "304",
            response: "HTTP/1.1 304 Not Modified\r\nContent-Length: 010\r\n\r\n",
            ..SOUND
        },
        end: End::Answered(304),
        written: "HTTP/1.1 304 Not Modified\r\nContent-Length: 10\r\nConnection: close\r\n\r\n",
        ..ANSWERED
    },
    Case {
        setting: Setting {
            name: "a response of version 1.0",
            response: "HTTP/1.0 200 OK\r\n\r\nabc",
            ..SOUND
        },
        ..ANSWERED
    },
    Case {
        setting: Setting {
            name: "a client that takes the answer in one write",
            client: Pace {
                most: 4096,
                ..STEADY
            },
            ..SOUND
        },
        writes: Some(1),
        ..ANSWERED
    },
    // requests that are refused before they enter
    Case {
        setting: Setting {
            name: "400",
            request: "GET / HTTP/1.1\r\n\r\n",
            ..SOUND
        },
        end: End::Refused(400),
        ..NOT_ENTERED
    },
    Case {
        setting: Setting {
            name: "413",
            request: "POST / HTTP/1.1\r\nHost: x\r\nContent-Length: 1048577\r\n\r\n",
            ..SOUND
        },
        end: End::Refused(413),
        ..NOT_ENTERED
    },
    Case {
        setting: Setting {
            name: "431",
            request: MANY_FIELDS,
            ..SOUND
        },
        end: End::Refused(431),
        ..NOT_ENTERED
    },
    Case {
        setting: Setting {
            name: "501",
            request: "CONNECT / HTTP/1.1\r\nHost: x\r\n\r\n",
            ..SOUND
        },
        end: End::Refused(501),
        ..NOT_ENTERED
    },
    Case {
        setting: Setting {
            name: "a request that is cut",
            request: "GET /a HTTP/1.1\r\nHost: x\r\n",
            ..SOUND
        },
        end: End::Closed,
        ..NOT_ENTERED
    },
    Case {
        setting: Setting {
            name: "the first read of the client",
            client: FAILS_TO_BE_READ,
            ..SOUND
        },
        end: End::ReadFailed,
        ..NOT_ENTERED
    },
    Case {
        setting: Setting {
            name: "100 Continue that cannot be written",
            client: FAILS_TO_BE_WRITTEN,
            ..WAITING
        },
        end: End::WriteFailed,
        ..NOT_ENTERED
    },
    // requests that the gate does not admit
    Case {
        setting: Setting {
            name: "no endpoint is available",
            available: 0,
            ..SOUND
        },
        ..NOT_ENTERED
    },
    Case {
        setting: Setting {
            name: "a gate that is shut",
            shut: true,
            ..SOUND
        },
        ..NOT_ENTERED
    },
    Case {
        setting: Setting {
            name: "no preview service",
            service: Service::Preview,
            ..SOUND
        },
        ..NOT_ENTERED
    },
    // clients that send their bodies only after 100 Continue was written to them
    Case {
        setting: Setting {
            name: "chunks after 100 Continue",
            request: "POST /p HTTP/1.1\r\nHost: x\r\nExpect: 100-continue\r\nTransfer-Encoding: chunked\r\n\r\n",
            rest: "2\r\nhi\r\n0\r\nT: 1\r\n\r\n",
            ..WAITING
        },
        written: EXPECTS_ANSWERED,
        ..ANSWERED
    },
    Case {
        setting: Setting {
            name: "a length after 100 Continue",
            request: "POST /p HTTP/1.1\r\nHost: x\r\nExpect: 100-continue\r\nContent-Length: 2\r\n\r\n",
            rest: "hi",
            ..WAITING
        },
        written: EXPECTS_ANSWERED,
        ..ANSWERED
    },
    Case {
        setting: Setting {
            name: "no 100 Continue that is not asked for",
            request: "POST /p HTTP/1.1\r\nHost: x\r\nContent-Length: 2\r\n\r\n",
            rest: "hi",
            ..WAITING
        },
        end: End::Closed,
        ..NOT_ENTERED
    },
    // interruptions
    Case {
        setting: Setting {
            name: "an interruption before each byte",
            client: BYTE_BY_BYTE,
            endpoint: BYTE_BY_BYTE,
            ..SOUND
        },
        writes: Some(CHUNKS_ON.len() as u64),
        ..ANSWERED
    },
    Case {
        setting: Setting {
            name: "an interruption before each byte, with 100 Continue",
            client: BYTE_BY_BYTE,
            endpoint: BYTE_BY_BYTE,
            ..WAITING
        },
        written: EXPECTS_ANSWERED,
        writes: Some(EXPECTS_ANSWERED.len() as u64),
        ..ANSWERED
    },
    // endpoints that fail
    Case {
        setting: Setting {
            name: "a response that is cut",
            response: "HTTP/1.1 200 OK\r\nTransfer-Encoding: chunked\r\n\r\n3\r\nab",
            ..SOUND
        },
        ..BAD_GATEWAY
    },
    Case {
        setting: Setting {
            name: "a response that is too large",
            response: "HTTP/1.1 200 OK\r\nContent-Length: 4194305\r\n\r\na",
            ..SOUND
        },
        ..BAD_GATEWAY
    },
    Case {
        setting: Setting {
            name: "the dial",
            port: 9001,
            ..SOUND
        },
        forwarded: 0,
        ..BAD_GATEWAY
    },
    Case {
        setting: Setting {
            name: "the dial, after 100 Continue",
            port: 9001,
            ..WAITING
        },
        written: EXPECTS_REFUSED,
        forwarded: 0,
        ..BAD_GATEWAY
    },
    Case {
        setting: Setting {
            name: "the flush of the client",
            client: FAILS_TO_FLUSH,
            ..SOUND
        },
        end: End::WriteFailed,
        ..ANSWERED
    },
    Case {
        setting: Setting {
            name: "the flush of a client that waited for 100 Continue",
            client: FAILS_TO_FLUSH,
            ..WAITING
        },
        end: End::WriteFailed,
        written: EXPECTS_ANSWERED,
        ..ANSWERED
    },
    Case {
        setting: Setting {
            name: "the first write to the endpoint",
            endpoint: FAILS_TO_BE_WRITTEN,
            ..SOUND
        },
        forwarded: 0,
        ..BAD_GATEWAY
    },
    Case {
        setting: Setting {
            name: "the first write to the endpoint, of a request that is given up before it",
            endpoint: FAILS_TO_BE_WRITTEN,
            cut_at: 1,
            ..SOUND
        },
        end: End::Refused(503),
        forwarded: 0,
        ..BAD_GATEWAY
    },
    Case {
        setting: Setting {
            name: "the first read of the endpoint",
            endpoint: FAILS_TO_BE_READ,
            ..SOUND
        },
        ..BAD_GATEWAY
    },
    Case {
        setting: Setting {
            name: "the first read of the endpoint, of a request that is given up before it",
            endpoint: FAILS_TO_BE_READ,
            cut_at: 2,
            ..SOUND
        },
        end: End::Refused(503),
        ..BAD_GATEWAY
    },
];

/// Interruptions without end.
static NEVER_ENDING: [Case; 3] = [
    Case {
        setting: Setting {
            name: "each read of the client is interrupted",
            client: EVERY_READ_INTERRUPTED,
            ..SOUND
        },
        end: End::ReadFailed,
        ..NOT_ENTERED
    },
    Case {
        setting: Setting {
            name: "each write to the client is interrupted",
            client: Pace {
                interruptions: Interruptions::EveryWrite,
                ..STEADY
            },
            ..SOUND
        },
        end: End::WriteFailed,
        written: "",
        ..ANSWERED
    },
    Case {
        setting: Setting {
            name: "each read of the endpoint is interrupted",
            endpoint: EVERY_READ_INTERRUPTED,
            ..SOUND
        },
        ..BAD_GATEWAY
    },
];

/// The bytes that are written to the client of a case.
fn written(case: &Case) -> &'static str {
    match case.end {
        End::Refused(status) if case.written.is_empty() => refusal(status),
        _ => case.written,
    }
}

/// Serves the connection of a case, whose request is received in this way.
pub fn check_case<R: Abort + Wait>(
    rt: &R,
    alloc: Global,
    case: &Case,
    receiving: Receiving,
) -> Result<Outcome, Fail> {
    let name = case.setting.name;
    let setting = Setting {
        receiving,
        ..case.setting
    };
    let expected = Expected {
        end: case.end,
        written: written(case),
        calls: case.calls,
    };
    let outcome = expect(rt, alloc, &setting, expected)?;
    let writes = case.writes.unwrap_or(outcome.client.writes);
    assert_eq!(rt; outcome.dialled, case.dialled, "{name}");
    assert_eq!(rt; outcome.forwarded, case.forwarded, "{name}");
    assert_eq!(rt; outcome.client.writes, writes, "{name}");
    Ok(outcome)
}

/// Serves the connections of cases, and reads their requests while they are served.
fn check<R: Abort + Wait>(rt: &R, alloc: Global, cases: &[Case]) -> Result<(), Fail> {
    for case in cases {
        let _outcome = check_case(rt, alloc, case, Receiving::WhileServed)?;
    }
    Ok(())
}

#[test]
fn connections_end_as_expected(rt: HostRuntime) -> Result<(), Fail> {
    check(&rt, rt.alloc(), &CASES)
}

#[test]
fn interruptions_without_end_fail(rt: HostRuntime) -> Result<(), Fail> {
    check(&rt, rt.alloc(), &NEVER_ENDING)
}
