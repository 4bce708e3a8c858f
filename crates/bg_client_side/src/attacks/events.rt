//! Lists of events at given moments.

use super::{SETTINGS, Where, where_of};
use crate::client_connection::ClientConnection;
use bg_http::Persistence;
use std::alloc::{AllocError, Global};

/// What happens on a connection.
pub(super) enum Event {
    Came(&'static [u8], u64),
    Continued,
    Take,
    Answer(&'static [u8], u64),
    /// A response begins to be passed on, whose head has this persistence.
    Begin(Persistence, u64),
    Passed(usize, bool, u64),
    /// The rest of a response, which lets the connection be kept.
    Rest(&'static [u8], u64),
    Cut,
    Wrote(usize, u64),
    End,
    Closing,
    Fail,
    Discarded(u64),
    Look(u64),
}

pub(super) struct Attack {
    pub(super) name: &'static str,
    pub(super) events: &'static [Event],
    pub(super) ends: Where,
}

fn carry_out(
    connection: &mut ClientConnection,
    event: &Event,
    alloc: Global,
) -> Result<(), AllocError> {
    match event {
        Event::Came(bytes, now) => {
            connection.feed(bytes, *now);
        }
        Event::Continued => {
            connection.note_continued();
        }
        Event::Take => {
            connection.take();
        }
        Event::Answer(text, now) => {
            let persistence = connection.persistence();
            connection.answer(Vec::from_slice(alloc, text)?, persistence, *now);
        }
        Event::Begin(persistence, now) => {
            connection.begin_passing_on(*persistence, *now);
        }
        Event::Passed(count, waits, now) => connection.passed_on(*count, *waits, *now),
        Event::Rest(text, now) => {
            connection.answer(Vec::from_slice(alloc, text)?, Persistence::Keep, *now);
        }
        Event::Cut => {
            connection.cut();
        }
        Event::Wrote(count, now) => {
            connection.wrote(*count, *now);
        }
        Event::End => connection.end_input(),
        Event::Closing => connection.begin_closing(),
        Event::Fail => connection.fail(),
        Event::Discarded(count) => connection.discarded(*count),
        Event::Look(now) => connection.look(*now),
    }
    Ok(())
}

/// Whether bytes are read where a connection is.
fn reads(place: Where) -> bool {
    matches!(place, Where::Idle | Where::Reading | Where::Lingering)
}

/// Where a connection is after the attack, if it reads as it should there.
fn end_of(alloc: Global, attack: &Attack) -> Result<Option<Where>, AllocError> {
    let mut connection = ClientConnection::new(alloc, SETTINGS, 0);
    for event in attack.events {
        carry_out(&mut connection, event, alloc)?;
    }
    let ends = where_of(&connection);
    Ok((connection.wants_read() == reads(ends)).then_some(ends))
}

/// The name of the first attack that does not end as it should, and where it ends.
pub(super) fn first_wrong(
    alloc: Global,
    attacks: &[Attack],
) -> Option<(&'static str, Option<Where>)> {
    for attack in attacks {
        match end_of(alloc, attack) {
            Ok(ends) if ends == Some(attack.ends) => {}
            Ok(ends) => return Some((attack.name, ends)),
            Err(_) => return Some((attack.name, None)),
        }
    }
    None
}

pub(super) const GET: &[u8] = b"GET / HTTP/1.1\r\nHost: x\r\n\r\n";

pub(super) const TWO: &[u8] = b"GET / HTTP/1.1\r\nHost: x\r\n\r\nGET / HTTP/1.1\r\nHost: x\r\n\r\n";

const EXPECTS: &[u8] =
    b"POST / HTTP/1.1\r\nHost: x\r\nExpect: 100-continue\r\nContent-Length: 2\r\n\r\na";

static ATTACKS: [Attack; 22] = [
    Attack {
        name: "a request that is inside, to which bytes come",
        events: &[Event::Came(GET, 1), Event::Take, Event::Came(GET, 2)],
        ends: Where::Inside,
    },
    Attack {
        name: "an answer of which a part was written",
        events: &[
            Event::Came(GET, 1),
            Event::Take,
            Event::Answer(b"ok", 2),
            Event::Wrote(1, 3),
        ],
        ends: Where::Answering,
    },
    Attack {
        name: "an answer that was written, by more than its rest",
        events: &[
            Event::Came(GET, 1),
            Event::Take,
            Event::Answer(b"ok", 2),
            Event::Wrote(9, 3),
        ],
        ends: Where::Idle,
    },
    Attack {
        name: "a client that ends its input within a request",
        events: &[Event::Came(b"GET / HTTP/1.1\r\n", 1), Event::End],
        ends: Where::Left,
    },
    Attack {
        name: "a client that ends its input behind two requests, after the first answer",
        events: &[
            Event::Came(TWO, 1),
            Event::End,
            Event::Take,
            Event::Answer(b"ok", 2),
            Event::Wrote(2, 3),
        ],
        ends: Where::Waiting,
    },
    Attack {
        name: "a client that ends its input behind a request, after the answer",
        events: &[
            Event::Came(GET, 1),
            Event::End,
            Event::Take,
            Event::Answer(b"ok", 2),
            Event::Wrote(2, 3),
        ],
        ends: Where::Left,
    },
    Attack {
        name: "a client that ends its input while 100 Continue is owed",
        events: &[Event::Came(EXPECTS, 1), Event::End],
        ends: Where::Continuing,
    },
    Attack {
        name: "a client that ends its input while 100 Continue is owed, and after it",
        events: &[Event::Came(EXPECTS, 1), Event::End, Event::Continued],
        ends: Where::Left,
    },
    Attack {
        name: "a slow request, a moment before its timeout",
        events: &[
            Event::Came(b"GET", 1),
            Event::Came(b" /", 9_000),
            Event::Look(9_999),
        ],
        ends: Where::Reading,
    },
    Attack {
        name: "a slow request, at its timeout",
        events: &[
            Event::Came(b"GET", 1),
            Event::Came(b" /", 9_000),
            Event::Look(10_000),
        ],
        ends: Where::Left,
    },
    Attack {
        name: "a slow second request, at the timeout from its first byte",
        events: &[
            Event::Came(GET, 1),
            Event::Answer(b"ok", 2),
            Event::Wrote(2, 3),
            Event::Came(b"G", 50_000),
            Event::Came(b"E", 59_000),
            Event::Look(60_000),
        ],
        ends: Where::Left,
    },
    Attack {
        name: "an idle connection, at its timeout",
        events: &[
            Event::Came(GET, 1),
            Event::Answer(b"ok", 2),
            Event::Wrote(2, 3),
            Event::Came(b"", 4),
            Event::Look(60_003),
        ],
        ends: Where::Left,
    },
    Attack {
        name: "a client that takes a byte now and then, a moment before its timeout",
        events: &[
            Event::Came(GET, 1),
            Event::Answer(b"okay", 2),
            Event::Wrote(1, 29_000),
            Event::Wrote(0, 30_000),
            Event::Look(58_999),
        ],
        ends: Where::Answering,
    },
    Attack {
        name: "a client that takes nothing, at its timeout",
        events: &[
            Event::Came(GET, 1),
            Event::Answer(b"okay", 2),
            Event::Wrote(1, 29_000),
            Event::Wrote(0, 30_000),
            Event::Look(59_000),
        ],
        ends: Where::Left,
    },
    Attack {
        name: "a request inside that takes long",
        events: &[Event::Came(GET, 1), Event::Take, Event::Look(900_000)],
        ends: Where::Inside,
    },
    Attack {
        name: "a shutdown between two requests",
        events: &[
            Event::Came(GET, 1),
            Event::Answer(b"ok", 2),
            Event::Wrote(2, 3),
            Event::Closing,
        ],
        ends: Where::Left,
    },
    Attack {
        name: "a shutdown while a request is inside",
        events: &[
            Event::Came(TWO, 1),
            Event::Take,
            Event::Closing,
            Event::Answer(b"ok", 2),
            Event::Wrote(2, 3),
        ],
        ends: Where::Lingering,
    },
    Attack {
        name: "a shutdown while an answer is written after which the connection goes on",
        events: &[
            Event::Came(GET, 1),
            Event::Answer(b"ok", 2),
            Event::Closing,
            Event::Wrote(2, 3),
        ],
        ends: Where::Left,
    },
    Attack {
        name: "a connection that fails while its request is inside",
        events: &[Event::Came(GET, 1), Event::Take, Event::Fail],
        ends: Where::Inside,
    },
    Attack {
        name: "a connection that failed while its request was inside, with the answer",
        events: &[
            Event::Came(GET, 1),
            Event::Take,
            Event::Fail,
            Event::Answer(b"ok", 2),
        ],
        ends: Where::Left,
    },
    Attack {
        name: "a lingering close, a byte before its end",
        events: &[
            Event::Came(b"G\x00", 1),
            Event::Answer(b"no", 2),
            Event::Wrote(2, 3),
            Event::Discarded((1 << 24) - 1),
            Event::Look(10_002),
        ],
        ends: Where::Lingering,
    },
    Attack {
        name: "a lingering close, at its last byte",
        events: &[
            Event::Came(b"G\x00", 1),
            Event::Answer(b"no", 2),
            Event::Wrote(2, 3),
            Event::Discarded((1 << 24) - 1),
            Event::Discarded(1),
        ],
        ends: Where::Left,
    },
];

#[test]
fn clients_that_end_fail_or_are_slow(rt: HostRuntime) {
    assert_eq!(rt; first_wrong(rt.alloc(), &ATTACKS), None);
}
