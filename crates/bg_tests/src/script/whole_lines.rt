//! Lines that were found whole, and the answers to them one by one, over memory.

use crate::script::control::{AT_DESK, AT_DESK_ANSWERS, BEFORE, BEFORE_ANSWERS, answer_each};
use bg_operator::{Line, LineFault, OperatorLines};
use bg_script::{Answer, LineResult, LinesEnd, WithoutBook, answer_line};
use std::test::Fail;

/// Lines with their line ends, one of each kind.
const LINES: [&str; 26] = [
    "open v1 9001 9002\n",
    "deploy web-v2 9201\r\n",
    "promote\n",
    "promote full\r\n",
    "promote\r",
    "promote",
    "abort\n",
    "retry\n",
    "tick 18446744073709551615\n",
    "available 1 2\n",
    "verdict pre failed\n",
    "verdict post inconclusive\n",
    "before 5 abort\n",
    "before 5 report\n",
    "enter 0 active\n",
    "leave 0\n",
    "down\n",
    "down 9001 9002\r\n",
    "report\n",
    "compact\n",
    "quit\n",
    "\n",
    "\r\n",
    "jump\u{e9}\n",
    "POST / HTTP/1.1\r\n",
    "Host: x\r\n",
];

/// A line that was found whole is read as a reader of lines reads it.
#[test]
fn a_whole_line_is_read_like_others(rt: HostRuntime) -> Result<(), Fail> {
    for bytes in LINES {
        let whole = Line::new(rt.alloc(), bytes.as_bytes())?;
        let mut lines = OperatorLines::new(rt.alloc());
        let mut reader = bytes.as_bytes();
        let read = lines.next(&mut reader)?;
        let (Some(read), speaks_http) = (read, lines.speaks_http()) else {
            panic!(rt; "{bytes:?} is no line");
        };
        let same = format!(in rt.alloc(); "{:?}", whole.read)?
            == format!(in rt.alloc(); "{read:?}")?;
        assert!(rt; same, "{bytes:?}");
        assert_eq!(rt; whole.speaks_http, speaks_http, "{bytes:?}");
        let text = match bytes.strip_suffix("\n") {
            Some(text) => text.strip_suffix("\r").unwrap_or(text),
            None => bytes,
        };
        assert_eq!(rt; whole.text.as_slice(), text.as_bytes(), "{bytes:?}");
    }
    Ok(())
}

#[test]
fn a_whole_line_may_be_too_long(rt: HostRuntime) -> Result<(), Fail> {
    let mut bytes = vec![in rt.alloc(); b' '; 4_096]?;
    let longest = Line::new(rt.alloc(), &bytes)?;
    assert!(rt; matches!(longest.read, Err(LineFault::Empty)));
    bytes.push(b'\n')?;
    let ended = Line::new(rt.alloc(), &bytes)?;
    assert!(rt; matches!(ended.read, Err(LineFault::Empty)));
    bytes.push(b' ')?;
    let longer = Line::new(rt.alloc(), &bytes)?;
    assert!(rt; matches!(longer.read, Err(LineFault::TooLong)));
    let skipped = Line::too_long(rt.alloc());
    assert!(rt; matches!(skipped.read, Err(LineFault::TooLong)));
    assert!(rt; skipped.text.is_empty() && !skipped.speaks_http);
    Ok(())
}

/// Each line by itself has the answer that it has among others.
#[test]
fn answers_line_by_line_at_a_desk(rt: HostRuntime) -> Result<(), Fail> {
    let answered = answer_each(&rt, rt.alloc(), AT_DESK)?;
    assert!(rt; matches!(answered.end, Ok(LinesEnd::Quit)));
    assert_eq!(rt; answered.answers.as_slice(), AT_DESK_ANSWERS.as_bytes());
    Ok(())
}

#[test]
fn answers_line_by_line_before_open(rt: HostRuntime) -> Result<(), Fail> {
    let mut answers = Vec::new(rt.alloc());
    let mut is_open = false;
    for text in BEFORE.lines() {
        let line = Line::new(rt.alloc(), text.as_bytes())?;
        match answer_line(&mut WithoutBook::Connection, line.read, &mut answers) {
            Ok(LineResult::Opens(first)) => {
                assert_eq!(rt; first.name.get(), "v1");
                is_open = true;
                break;
            }
            Ok(LineResult::Said(answer)) => assert!(rt; !answer.was_carried_out()),
            _ => panic!(rt; "{text:?} has no answer"),
        }
    }
    assert_eq!(rt; answers.as_slice(), BEFORE_ANSWERS.as_bytes());
    assert!(rt; is_open);
    Ok(())
}

/// The answers that say that a line was carried out, and that the journal lacks an order.
#[test]
fn an_answer_says_what_was_done(rt: HostRuntime) {
    for (answer, was_carried_out, lacks_order) in [
        (Answer::Opened, true, false),
        (Answer::MarkedDown(2), true, false),
        (Answer::Unsaved(1), true, true),
        (Answer::JournalFailed, false, true),
        (Answer::TooLate, false, false),
        (Answer::Compacted(1), false, false),
        (Answer::Unread(LineFault::Empty), false, false),
    ] {
        assert_eq!(rt; answer.was_carried_out(), was_carried_out);
        assert_eq!(rt; answer.lacks_order(), lacks_order);
    }
}
