//! Requests that the gate gives up while they are forwarded.

use crate::connections::{SOUND, Setting};
use crate::fakes::{Interruptions, Pace, STEADY};
use crate::messages::{CHUNKS_ON, Expected, expect, refusal};
use bg_forward::{End, Reason};
use std::alloc::Global;
use std::process::Abort;
use std::sync::Wait;
use std::test::Fail;

/// An endpoint that is read in one piece or in several, and one whose reads are interrupted.
pub fn paces() -> [Pace; 3] {
    let at_once = Pace {
        most: 4096,
        ..STEADY
    };
    let interrupted = Pace {
        interruptions: Interruptions::EverySecond,
        ..STEADY
    };
    [STEADY, at_once, interrupted]
}

/// The number of questions if the gate gives nothing up.
fn questions<R: Abort + Wait>(rt: &R, alloc: Global, sound: &Setting) -> Result<u64, Fail> {
    let answered = Expected::entered(End::Answered(200), CHUNKS_ON);
    let whole = expect(rt, alloc, sound, answered)?;
    Ok(whole.questions)
}

/// A request that is given up at a question.
fn cut_at_question<R: Abort + Wait>(
    rt: &R,
    alloc: Global,
    sound: &Setting,
    cut_at: u64,
) -> Result<(), Fail> {
    let setting = Setting { cut_at, ..*sound };
    let refused = Expected::entered(End::Refused(503), refusal(503));
    let outcome = expect(rt, alloc, &setting, refused)?;
    assert_eq!(rt; outcome.reason, Some(Reason::GivenUp));
    assert_eq!(rt; outcome.questions, cut_at);
    assert_eq!(rt; outcome.dialled, 1);
    // the first question comes before the request is written, and each further one before a read
    assert_eq!(rt; outcome.forwarded, if cut_at == 1 { 0 } else { 1 });
    assert_eq!(rt; outcome.endpoint.writes == 0, cut_at == 1);
    assert_eq!(rt; outcome.endpoint.reads, cut_at.saturating_sub(2));
    Ok(())
}

#[test]
fn cut(rt: HostRuntime) -> Result<(), Fail> {
    for endpoint in paces() {
        let sound = Setting { endpoint, ..SOUND };
        let count = questions(&rt, rt.alloc(), &sound)?;
        assert!(rt; count >= 2);
        for cut_at in 1..=count {
            cut_at_question(&rt, rt.alloc(), &sound, cut_at)?;
        }
        let later = Setting {
            cut_at: count.saturating_add(1),
            ..sound
        };
        let _questions = questions(&rt, rt.alloc(), &later)?;
    }
    Ok(())
}
