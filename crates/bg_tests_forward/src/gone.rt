//! Clients that go while their requests are forwarded.

use crate::connections::{Outcome, SOUND, Setting};
use crate::fakes::{Interruptions, Pace, STEADY};
use crate::given_up::paces;
use crate::messages::{CHUNKS_ON, Expected, expect, refusal};
use bg_forward::{End, Reason};
use std::alloc::Global;
use std::process::Abort;
use std::sync::Wait;
use std::test::Fail;

/// A client that has gone when this question comes, counted from 1.
fn gone_at(question: u64) -> Pace {
    Pace {
        goes_at: Some(question),
        ..STEADY
    }
}

/// An endpoint that takes the request and gives nothing: each read of it is interrupted.
fn silent() -> Pace {
    Pace {
        interruptions: Interruptions::EveryRead,
        ..STEADY
    }
}

/// The client was asked this many times, each time before a read and after the gate, and the connection to the
/// endpoint was closed.
fn let_go<R: Abort>(rt: &R, outcome: &Outcome, question: u64) {
    assert_eq!(rt; outcome.reason, Some(Reason::ClientGone));
    assert_eq!(rt; outcome.client_questions, question);
    assert_eq!(rt; outcome.questions, question.saturating_add(1));
    assert_eq!(rt; outcome.endpoint.reads, question.saturating_sub(1));
    assert_eq!(rt; outcome.forwarded, 1);
    assert_eq!(rt; outcome.dialled, 1);
    assert_eq!(rt; outcome.dropped, 1);
}

/// A client that has gone at a question. In one run it still takes the bytes that are written to it, and in
/// another it does not.
fn goes<R: Abort + Wait>(rt: &R, alloc: Global, endpoint: Pace, question: u64) -> Result<(), Fail> {
    let setting = Setting {
        client: gone_at(question),
        endpoint,
        ..SOUND
    };
    let unavailable = Expected::entered(End::Refused(503), refusal(503));
    let refused = expect(rt, alloc, &setting, unavailable)?;
    let_go(rt, &refused, question);
    let reset = Pace {
        failing_write: Some(0),
        ..gone_at(question)
    };
    let setting = Setting {
        client: reset,
        ..setting
    };
    let unwritten = Expected::entered(End::WriteFailed, "");
    let failed = expect(rt, alloc, &setting, unwritten)?;
    let_go(rt, &failed, question);
    Ok(())
}

#[test]
fn lets_a_silent_endpoint_go(rt: HostRuntime) -> Result<(), Fail> {
    for question in [1, 2, 100] {
        goes(&rt, rt.alloc(), silent(), question)?;
    }
    Ok(())
}

/// A client that stays is asked before each read, after the gate, and gets its answer. A client that has gone at one of
/// these questions does not.
fn stays_or_goes<R: Abort + Wait>(rt: &R, alloc: Global, endpoint: Pace) -> Result<(), Fail> {
    let setting = Setting { endpoint, ..SOUND };
    let answered = Expected::entered(End::Answered(200), CHUNKS_ON);
    let stays = expect(rt, alloc, &setting, answered)?;
    let reads = stays.endpoint.reads;
    assert!(rt; reads >= 1);
    assert_eq!(rt; stays.client_questions, reads);
    assert_eq!(rt; stays.questions, reads.saturating_add(1));
    assert_eq!(rt; stays.dropped, 1);
    for question in 1..=reads {
        goes(rt, alloc, endpoint, question)?;
    }
    let setting = Setting {
        client: gone_at(reads.saturating_add(1)),
        ..setting
    };
    let _goes_later = expect(rt, alloc, &setting, answered)?;
    Ok(())
}

#[test]
fn asks_before_each_read(rt: HostRuntime) -> Result<(), Fail> {
    for endpoint in paces() {
        stays_or_goes(&rt, rt.alloc(), endpoint)?;
    }
    Ok(())
}

#[test]
fn does_not_ask_before_the_endpoint_has_its_request(rt: HostRuntime) -> Result<(), Fail> {
    let sound = Setting {
        client: gone_at(1),
        ..SOUND
    };
    let not_dialled = Setting { port: 1, ..sound };
    let not_written = Setting {
        endpoint: Pace {
            failing_write: Some(0),
            ..STEADY
        },
        ..sound
    };
    for setting in [not_dialled, not_written] {
        let refused = Expected::entered(End::Refused(502), refusal(502));
        let outcome = expect(&rt, rt.alloc(), &setting, refused)?;
        assert_eq!(rt; outcome.dialled, 1);
        assert_eq!(rt; outcome.client_questions, 0);
    }
    Ok(())
}
