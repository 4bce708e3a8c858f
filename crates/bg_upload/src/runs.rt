//! Worked requests, and runs of a few calls, each with the bytes that follow from RFC 9112 sections 6 and 7.

use crate::large_request::find_large_request;
use crate::upload::Upload;
use crate::upload_fault::UploadFault;
use crate::upload_terms::UploadTerms;
use bg_endpoint_side::{ForwardFault, Health};
use bg_http::{Framing, RequestFault, ResponseFault};
use std::alloc::{AllocError, Global};

/// What bytes are found to begin with: the framing of a body, whether `100 Continue` is awaited, and the length of the head.
type Found = Result<Option<(Framing, bool, usize)>, RequestFault>;

/// What these bytes begin with, if a body may have 3,000,000 bytes.
fn found(alloc: Global, bytes: &[u8]) -> Found {
    match find_large_request(alloc, bytes, 3_000_000) {
        Ok(Some(large)) => Ok(Some((large.framing, large.expects_continue, large.head_length))),
        Ok(None) => Ok(None),
        Err(fault) => Err(fault),
    }
}

static FOUND: [(&[u8], Found); 10] = [
    (
        b"POST / HTTP/1.1\r\nHost: x\r\nContent-Length: 2000000\r\n\r\nabc",
        Ok(Some((Framing::Length(2_000_000), false, 53))),
    ),
    (
        b"POST / HTTP/1.1\r\nHost: x\r\nContent-Length: 3000001\r\n\r\n",
        Err(RequestFault::TooLarge),
    ),
    (
        b"POST / HTTP/1.1\r\nHost: x\r\nTransfer-Encoding: chunked\r\n\r\n",
        Ok(Some((Framing::Chunks, false, 56))),
    ),
    (
        b"PUT / HTTP/1.1\r\nHost: x\r\nContent-Length: 9\r\nExpect: 100-continue\r\n\r\n",
        Ok(Some((Framing::Length(9), true, 68))),
    ),
    (
        b"PUT / HTTP/1.0\r\nContent-Length: 9\r\nExpect: 100-continue\r\n\r\n",
        Ok(Some((Framing::Length(9), false, 59))),
    ),
    (b"GET / HTTP/1.1\r\nHost: x\r\n\r\n", Ok(None)),
    (
        b"POST / HTTP/1.1\r\nHost: x\r\nContent-Length: 9\r\n",
        Ok(None),
    ),
    (
        b"POST / HTTP/1.1\r\nHost: x\r\nContent-Length: 9\r\nTransfer-Encoding: chunked\r\n\r\n",
        Err(RequestFault::Bad),
    ),
    (
        b"POST / HTTP/1.1\r\nContent-Length: 9\r\n\r\n",
        Err(RequestFault::Bad),
    ),
    (
        b"POST / HTTP/1.1\r\nHost: x\r\nTransfer-Encoding: gzip, chunked\r\n\r\n",
        Err(RequestFault::NotDone),
    ),
];

#[test]
fn a_large_request_is_found_by_its_head(rt: HostRuntime) {
    for (bytes, expected) in &FOUND {
        assert_eq!(rt; found(rt.alloc(), bytes), *expected);
    }
}

/// A call, with what it is to give.
enum Step {
    /// These bytes come from the client, or from the endpoint, at a moment.
    Client(&'static [u8], u64),
    Endpoint(&'static [u8], u64),
    /// They take so many bytes, at a moment.
    ClientTakes(usize, u64),
    EndpointTakes(usize, u64),
    ClientEnds,
    EndpointEnds,
    EndpointReadsNoMore,
    /// The last of these calls had this fault.
    Fault(Option<UploadFault>),
    /// These bytes are to be written.
    ToClient(&'static [u8]),
    ToEndpoint(&'static [u8]),
    /// Bytes of the client are to be read, and bytes of the endpoint.
    Reads(bool, bool),
    /// The response is whole, and the body is.
    Whole(bool, bool),
    IsBegun(bool),
    Code(Option<u16>),
    Health(Health),
    /// It is late at this moment, by this fault.
    Late(u64, Option<UploadFault>),
}

struct Run {
    name: &'static str,
    head: &'static [u8],
    owes_continue: bool,
    window: usize,
    most_body: usize,
    steps: &'static [Step],
}

/// The upload that a run begins with, at moment 0, with a second in which no byte may pass.
fn begin(alloc: Global, run: &Run) -> Result<Option<Upload>, AllocError> {
    let Ok(Some(large)) = find_large_request(alloc, run.head, usize::MAX) else {
        return Ok(None);
    };
    let terms = UploadTerms {
        port: 8081,
        owes_continue: run.owes_continue,
        window: run.window,
        most_body: run.most_body,
        most_response: 1_000,
        silence_millis: 1_000,
    };
    match Upload::new(alloc, &large.request, large.framing, terms, 0) {
        Ok(upload) => Ok(Some(upload)),
        Err(_) => Err(AllocError),
    }
}

fn client_gets(upload: &Upload, bytes: &[u8]) -> bool {
    upload.to_client() == bytes
}

fn endpoint_gets(upload: &Upload, bytes: &[u8]) -> bool {
    upload.to_endpoint() == bytes
}

/// Makes a call, and gives whether it gives what it is to give. `last` is the fault of the last call that may have one.
fn holds(upload: &mut Upload, step: &Step, last: &mut Option<UploadFault>) -> bool {
    match step {
        Step::Client(bytes, now) => *last = upload.client_sent(bytes, *now).err(),
        Step::Endpoint(bytes, now) => *last = upload.endpoint_sent(bytes, *now).err(),
        Step::ClientTakes(count, now) => *last = upload.client_took(*count, *now).err(),
        Step::EndpointTakes(count, now) => *last = upload.endpoint_took(*count, *now).err(),
        Step::ClientEnds => *last = upload.client_ended().err(),
        Step::EndpointEnds => *last = upload.endpoint_ended().err(),
        Step::EndpointReadsNoMore => upload.endpoint_reads_no_more(),
        Step::Fault(fault) => return *last == *fault,
        Step::ToClient(bytes) => return client_gets(upload, bytes),
        Step::ToEndpoint(bytes) => return endpoint_gets(upload, bytes),
        Step::Reads(client, endpoint) => {
            return upload.reads_client() == *client && upload.reads_endpoint() == *endpoint;
        }
        Step::Whole(response, body) => {
            return upload.is_whole() == *response && upload.is_body_whole() == *body;
        }
        Step::IsBegun(is_begun) => return upload.is_begun() == *is_begun,
        Step::Code(code) => return upload.code() == *code,
        Step::Health(health) => return upload.health() == *health,
        Step::Late(now, fault) => {
            return match fault {
                Some(fault) => upload.is_late(*now) && upload.late_fault() == *fault,
                None => !upload.is_late(*now),
            };
        }
    }
    true
}

/// The name of the first run with a call that gives something else than it is to give, and the number of this call.
fn first_wrong(alloc: Global, runs: &[Run]) -> Result<Option<(&'static str, usize)>, AllocError> {
    for run in runs {
        let Some(mut upload) = begin(alloc, run)? else {
            return Ok(Some((run.name, 0)));
        };
        let mut last = None;
        for (number, step) in run.steps.iter().enumerate() {
            if !holds(&mut upload, step, &mut last) {
                return Ok(Some((run.name, number)));
            }
        }
    }
    Ok(None)
}

const LENGTH: &[u8] = b"POST /u HTTP/1.1\r\nHost: x\r\nContent-Length: 10\r\n\r\n";

const CHUNKS: &[u8] = b"POST /u HTTP/1.1\r\nHost: x\r\nTransfer-Encoding: chunked\r\n\r\n";

const LENGTH_SENT: &[u8] =
    b"POST /u HTTP/1.1\r\nHost: x\r\nVia: 1.1 bg-switch\r\nContent-Length: 10\r\nConnection: close\r\n\r\n";

const CHUNKS_SENT: &[u8] =
    b"POST /u HTTP/1.1\r\nHost: x\r\nVia: 1.1 bg-switch\r\nTransfer-Encoding: chunked\r\nConnection: close\r\n\r\n";

const OK: &[u8] = b"HTTP/1.1 200 OK\r\nContent-Length: 2\r\n\r\nok";

const OK_SENT: &[u8] = b"HTTP/1.1 200 OK\r\nContent-Length: 2\r\nConnection: close\r\n\r\n";

static RUNS: [Run; 9] = [
    Run {
        name: "a body with its length, in pieces",
        head: LENGTH,
        owes_continue: false,
        window: 100,
        most_body: 5,
        steps: &[
            Step::ToEndpoint(LENGTH_SENT),
            Step::Client(b"0123", 1),
            Step::EndpointTakes(20, 1),
            Step::EndpointTakes(1_000, 1),
            Step::ToEndpoint(b"0123"),
            Step::EndpointTakes(3, 2),
            Step::Client(b"456789next", 3),
            Step::Fault(None),
            Step::ToEndpoint(b"3456789"),
            Step::Whole(false, true),
            Step::Reads(false, true),
            Step::ClientEnds,
            Step::Fault(None),
            Step::EndpointTakes(7, 4),
            Step::ToEndpoint(b""),
            Step::IsBegun(false),
            Step::Code(None),
            Step::Health(Health::Unknown),
            Step::Endpoint(OK, 5),
            Step::Health(Health::Answers),
            Step::Code(Some(200)),
            Step::Whole(true, true),
            Step::ToClient(OK_SENT),
            Step::ClientTakes(1, 6),
            Step::IsBegun(true),
        ],
    },
    Run {
        name: "a body in chunks, with trailers and an extension",
        head: CHUNKS,
        owes_continue: false,
        window: 100,
        most_body: 100,
        steps: &[
            Step::EndpointTakes(1_000, 0),
            Step::Client(b"3;a=b\r\nabc\r", 1),
            Step::ToEndpoint(b"3\r\nabc\r\n"),
            Step::EndpointTakes(8, 1),
            Step::Client(b"\n2\r\nde\r\n0\r\nTrailer: x\r\n\r\n", 2),
            Step::Fault(None),
            Step::ToEndpoint(b"2\r\nde\r\n0\r\n\r\n"),
            Step::Whole(false, true),
        ],
    },
    Run {
        name: "a client that ends before its body does",
        head: CHUNKS,
        owes_continue: false,
        window: 100,
        most_body: 100,
        steps: &[
            Step::ToEndpoint(CHUNKS_SENT),
            Step::EndpointTakes(1_000, 0),
            Step::Client(b"3\r\nab", 1),
            Step::ClientEnds,
            Step::Fault(Some(UploadFault::Request(RequestFault::Closed))),
            Step::ToEndpoint(b"2\r\nab\r\n"),
            Step::Whole(false, false),
            Step::Reads(false, true),
            Step::Client(b"c\r\n0\r\n\r\n", 2),
            Step::Fault(Some(UploadFault::Request(RequestFault::Closed))),
            Step::ToEndpoint(b"2\r\nab\r\n"),
        ],
    },
    Run {
        name: "a body that is malformed",
        head: CHUNKS,
        owes_continue: false,
        window: 100,
        most_body: 10,
        steps: &[
            Step::EndpointTakes(1_000, 0),
            Step::Client(b"3\r\nabc\r\n", 1),
            Step::Client(b"x\r", 1),
            Step::Fault(Some(UploadFault::Request(RequestFault::Bad))),
            Step::ToEndpoint(b"3\r\nabc\r\n"),
        ],
    },
    Run {
        name: "a body with a byte more than it may have",
        head: CHUNKS,
        owes_continue: false,
        window: 100,
        most_body: 13,
        steps: &[
            Step::EndpointTakes(1_000, 0),
            Step::Client(b"3\r\nabc\r\n", 1),
            Step::Client(b"0\r\n\r", 1),
            Step::Fault(None),
            Step::Reads(true, true),
            Step::Client(b"xy", 2),
            Step::Fault(Some(UploadFault::Request(RequestFault::TooLarge))),
            Step::Client(b"\n", 2),
            Step::Fault(Some(UploadFault::Request(RequestFault::TooLarge))),
            Step::Reads(false, true),
            Step::Whole(false, false),
            Step::ToEndpoint(b"3\r\nabc\r\n"),
        ],
    },
    Run {
        name: "a body with as many bytes as it may have",
        head: CHUNKS,
        owes_continue: false,
        window: 100,
        most_body: 13,
        steps: &[
            Step::EndpointTakes(1_000, 0),
            Step::Client(b"3\r\nabc\r\n0\r\n", 1),
            Step::Client(b"\r\n", 1),
            Step::Fault(None),
            Step::Whole(false, true),
            Step::ToEndpoint(b"3\r\nabc\r\n0\r\n\r\n"),
        ],
    },
    Run {
        name: "an endpoint that takes nothing",
        head: LENGTH,
        owes_continue: false,
        window: 4,
        most_body: 10,
        steps: &[
            Step::Client(b"01", 1),
            Step::Reads(true, true),
            Step::Client(b"234567", 1),
            Step::Reads(false, true),
            Step::EndpointTakes(1_000, 2),
            Step::ToEndpoint(b"0123"),
            Step::EndpointTakes(1, 3),
            Step::ToEndpoint(b"1234"),
            Step::Late(1_002, None),
            Step::Late(
                1_003,
                Some(UploadFault::Forward(ForwardFault::ResponseTimeout)),
            ),
            Step::EndpointReadsNoMore,
            Step::ToEndpoint(b""),
            Step::Reads(false, true),
            Step::EndpointEnds,
            Step::Fault(Some(UploadFault::Forward(ForwardFault::Response(ResponseFault::Closed)))),
        ],
    },
    Run {
        name: "a client that awaits 100 Continue, and then is silent",
        head: LENGTH,
        owes_continue: true,
        window: 100,
        most_body: 10,
        steps: &[
            Step::ToClient(b"HTTP/1.1 100 Continue\r\n\r\n"),
            Step::IsBegun(false),
            Step::ClientTakes(9, 0),
            Step::IsBegun(true),
            Step::ToClient(b"100 Continue\r\n\r\n"),
            Step::Late(1_000, Some(UploadFault::Forward(ForwardFault::ClientGone))),
            Step::ClientTakes(16, 0),
            Step::IsBegun(false),
            Step::ToClient(b""),
            Step::EndpointTakes(1_000, 7),
            Step::Late(1_006, None),
            Step::Late(1_007, Some(UploadFault::Request(RequestFault::ReadFailed))),
        ],
    },
    Run {
        name: "a response before the body is whole",
        head: LENGTH,
        owes_continue: false,
        window: 100,
        most_body: 10,
        steps: &[
            Step::Client(b"01", 1),
            Step::Endpoint(b"HTTP/1.1 413 X\r\nContent-Length: 0\r\n\r\n", 2),
            Step::Whole(true, false),
            Step::Code(Some(413)),
            Step::ToClient(b"HTTP/1.1 413 X\r\nContent-Length: 0\r\nConnection: close\r\n\r\n"),
        ],
    },
];

#[test]
fn runs_give_what_follows_from_the_rules(rt: HostRuntime) {
    assert_eq!(rt; first_wrong(rt.alloc(), &RUNS), Ok(None));
}
