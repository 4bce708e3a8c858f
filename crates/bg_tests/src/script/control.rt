//! The lines of a control connection, over memory.
ghost use Rattle.std.specs.Prelude.{◌≡◌, true};
ghost use Rattle.bg_ledger.specs.Blanks.{AreAllFor};

use crate::book::samples::{opening_within, strategy};
use crate::history::gathered::expect_audited;
use crate::script::streams::Unflushed;
use bg_book::{Book, Desk, Limits, SeatLimit};
use bg_ledger::{Blanks, Names};
use bg_operator::{Line, OperatorLines};
use bg_script::{
    AtDesk, BootClock, LineResult, LinesEnd, MarksDown, RunEnd, answer_at_desk, answer_before_open,
    answer_line,
};
use std::alloc::{AllocError, Global};
use std::cell::RefCell;
use std::io::Write;
use std::marker::Brand;
use std::process::Abort;
use std::sync::Wait;
use std::sync::atomic::{AtomicU64, Ordering};
use std::test::Fail;

pub(super) const BEFORE: &str =
    "tick 1\nenter 0 active\nleave 0\njump\nreport\ndown 9001\ndown\nbefore 9 tick 1\nbefore 9 report\nopen\nopen v1 9001 9002\ntick 2\n";

pub(super) const BEFORE_ANSWERS: &str =
    "refused NotOpen\nrefused NotHere\nrefused NotHere\nfault UnknownWord\nrefused NotOpen\nrefused NotOpen\nrefused NotOpen\nrefused NotOpen\nfault BadWord\nfault WrongCount\n";

pub(super) const AT_DESK: &str =
    "open v1 9001 9002\nenter 0 active\nleave 0\navailable 1 2\ntick 3\ntick 2\ntick\nreport\r\nquit now\nquit\nreport\n";

pub(super) const AT_DESK_ANSWERS: &str =
    "refused AlreadyOpen\nrefused NotHere\nrefused NotHere\nok 0\nok 0\nrefused MomentBack\nfault WrongCount
moment 3
phase steady
active 1
preview 1
stable 1
newest 1
revision 1 v1 desired 2 available 2 open 0 deadline none
end
fault WrongCount
";

/// The third tick finds no room in a history of 143 places, so the entry of the first is dropped. The last report
/// of availability finds no room, and nothing can be dropped.
const AT_FULL_DESK: &str =
    "available 1 2\ntick 1\ntick 2\ntick 3\ncompact\navailable 1 1\navailable 1 2\n";

const AT_FULL_DESK_ANSWERS: &str =
    "ok 0\nok 0\nok 0\nok 0\ncompacted 1\nok 0\nrefused HistoryFull\n";

const DOWN: &str =
    "down 9001 9002\ndown 9002 9001 9002\ndown 9001 0\ndown 9001 65536\ndown 9002\ndown 9001 7\ndown x 9001\ndown\ndown 65535 1\n";

const DOWN_ANSWERS: &str =
    "ok 2\nrefused BadPorts\nrefused BadPorts\nfault BadNumber\nok 1\nrefused OutOfMemory\nfault BadNumber\nok 0\nok 2\n";

/// The ports of each line that is carried out.
const DOWN_PORTS: &str = "[9001, 9002]\n[9002]\n[]\n[65535, 1]\n";

#[test]
fn leaves_an_open_to_the_caller(rt: HostRuntime) -> Result<(), Fail> {
    let mut reader = BEFORE.as_bytes();
    let mut answers = Vec::new(rt.alloc());
    let mut lines = OperatorLines::new(rt.alloc());
    match answer_before_open(&mut lines, &mut reader, &mut answers) {
        Ok(LinesEnd::Open(first)) => {
            assert_eq!(rt; first.name.get(), "v1");
            assert_eq!(rt; first.ports.get(), [9001u16, 9002].as_slice());
        }
        _ => panic!(rt; "no book is asked for"),
    }
    assert_eq!(rt; answers.as_slice(), BEFORE_ANSWERS.as_bytes());
    assert_eq!(rt; reader, b"tick 2\n".as_slice());
    Ok(())
}

/// How the lines ended, the answers to them, how many were refused because the history is full, the ports of each
/// line `down`, how often the clock was read, and the number of entries of the history.
#[derive(Drop)]
pub(super) struct Answered {
    pub(super) end: Result<LinesEnd, RunEnd>,
    pub(super) answers: Vec<u8>,
    pub(super) refused_for_room: u64,
    pub(super) down: Vec<u8>,
    pub(super) readings: u64,
    pub(super) entries: u64,
}

/// Writes the ports of each call, in a line of its own. A call with the port 7 fails.
#[derive(Drop)]
struct Written {
    text: RefCell<Vec<u8>>,
}

impl MarksDown for Written {
    fn set_down(&self, ports: &[u16]) -> Result<(), AllocError> {
        let Ok(mut text) = self.text.try_borrow_mut() else {
            return Err(AllocError);
        };
        if ports.contains(&7) {
            return Err(AllocError);
        }
        writeln!(text, "{ports:?}").map_err(|_| AllocError)
    }
}

/// A clock that reads 0, then 1, and so on.
#[derive(Drop)]
struct CountingClock {
    readings: AtomicU64,
}

impl BootClock for CountingClock {
    ghost reads = { λ _ _. true };

    fn milliseconds(&self) -> u64 {
        self.readings.fetch_add(1, Ordering::SeqCst)
    }
}

/// How lines are answered.
#[derive(Clone, Copy, Drop)]
pub(super) enum Way {
    /// Those of a reader, one after the other.
    Together,
    /// Each by itself, up to `quit`.
    OneByOne,
}

fn answer<N: Names, R: Wait>(
    rt: &R,
    alloc: Global,
    limits: Limits,
    lines: &mut &[u8],
    way: Way,
    blanks: Blanks,
) -> Result<Answered, Fail>
    requires blanks { AreAllFor N.Names blanks }
    requires seats { N.seats ≡ 1 }
{
    let strategy = strategy(alloc)?;
    let mut answers = Vec::new(alloc);
    let mut taken = OperatorLines::new(alloc);
    let opening = opening_within(&strategy, 1, limits);
    let (book, seats) = Book::<N>::open(alloc, SeatLimit::Few, &opening, blanks)?;
    let desk = Desk::new(book);
    let refused = AtomicU64::new(0);
    let written = Written {
        text: RefCell::new(Vec::new(alloc)),
    };
    let clock = CountingClock {
        readings: AtomicU64::new(0),
    };
    let at_desk = AtDesk {
        rt,
        alloc,
        desk: &desk,
        clock: &clock,
        refused_for_room: &refused,
        receiver: &written,
    };
    let end = match way {
        Way::Together => answer_at_desk(at_desk, &mut taken, lines, &mut answers),
        Way::OneByOne => one_by_one(alloc, at_desk, lines, &mut answers),
    };
    let history = desk.into_book().close(seats);
    expect_audited(alloc, &history, &strategy)?;
    Ok(Answered {
        end,
        answers,
        refused_for_room: refused.load(Ordering::SeqCst),
        down: written.text.into_inner(),
        readings: clock.readings.load(Ordering::SeqCst),
        entries: history.len(),
    })
}

pub(super) fn answer_lines<R: Wait>(
    rt: &R,
    alloc: Global,
    lines: &mut &[u8],
) -> Result<Answered, Fail> {
    answer_within(rt, alloc, Limits::usual(), lines, Way::Together)
}

pub(super) fn answer_within<R: Wait>(
    rt: &R,
    alloc: Global,
    limits: Limits,
    lines: &mut &[u8],
    way: Way,
) -> Result<Answered, Fail> {
    answer::<Brand, R>(rt, alloc, limits, lines, way, Blanks::new())
}

/// Answers these lines, each of which was found whole, by itself, up to `quit`.
pub(super) fn answer_each<R: Wait>(rt: &R, alloc: Global, lines: &str) -> Result<Answered, Fail> {
    let mut lines = lines.as_bytes();
    answer_within(rt, alloc, Limits::usual(), &mut lines, Way::OneByOne)
}

/// Answers each line by itself, up to `quit`.
fn one_by_one<N: Names, R: Wait>(
    alloc: Global,
    mut at_desk: AtDesk<N, R, CountingClock, Written>,
    lines: &mut &[u8],
    answers: &mut Vec<u8>,
) -> Result<LinesEnd, RunEnd> {
    for text in lines.split_inclusive(|byte| *byte == b'\n') {
        let line = Line::new(alloc, text)?;
        if let LineResult::Quits = answer_line(&mut at_desk, line.read, answers)? {
            return Ok(LinesEnd::Quit);
        }
    }
    Ok(LinesEnd::End)
}

/// Answers lines, of which these are not read. The answers are as expected.
fn expect_answers<R: Wait + Abort>(
    rt: &R,
    alloc: Global,
    lines: &str,
    answers: &str,
    unread: &str,
) -> Result<Answered, Fail> {
    let mut reader = lines.as_bytes();
    let answered = answer_lines(rt, alloc, &mut reader)?;
    assert_eq!(rt; answered.answers.as_slice(), answers.as_bytes());
    assert_eq!(rt; reader, unread.as_bytes());
    Ok(answered)
}

#[test]
fn answers_at_a_desk_up_to_quit(rt: HostRuntime) -> Result<(), Fail> {
    let answered = expect_answers(&rt, rt.alloc(), AT_DESK, AT_DESK_ANSWERS, "report\n")?;
    assert!(rt; matches!(answered.end, Ok(LinesEnd::Quit)));
    assert_eq!(rt; answered.refused_for_room, 0);
    Ok(())
}

#[test]
fn a_control_connection_may_end_in_a_line(rt: HostRuntime) -> Result<(), Fail> {
    let lines = "available 1 2\navailable 1";
    let answered = expect_answers(&rt, rt.alloc(), lines, "ok 0\nfault WrongCount\n", "")?;
    assert!(rt; matches!(answered.end, Ok(LinesEnd::End)));
    Ok(())
}

#[test]
fn compacts_a_full_history_and_asks_again(rt: HostRuntime) -> Result<(), Fail> {
    let limits = Limits {
        entries: 143,
        numbers: 1 << 53,
    };
    let mut lines = AT_FULL_DESK.as_bytes();
    let answered = answer_within(&rt, rt.alloc(), limits, &mut lines, Way::Together)?;
    assert!(rt; matches!(answered.end, Ok(LinesEnd::End)));
    assert_eq!(rt;
        answered.answers.as_slice(),
        AT_FULL_DESK_ANSWERS.as_bytes()
    );
    assert_eq!(rt; answered.refused_for_room, 1);
    Ok(())
}

/// The receiver gets the ports of each line that is carried out, and no others. The history does not change.
#[test]
fn hands_over_the_ports_that_are_down(rt: HostRuntime) -> Result<(), Fail> {
    let none = answer_lines(&rt, rt.alloc(), &mut "".as_bytes())?;
    let answered = answer_lines(&rt, rt.alloc(), &mut DOWN.as_bytes())?;
    assert!(rt; matches!(answered.end, Ok(LinesEnd::End)));
    assert_eq!(rt; answered.answers.as_slice(), DOWN_ANSWERS.as_bytes());
    assert_eq!(rt; answered.down.as_slice(), DOWN_PORTS.as_bytes());
    assert_eq!(rt; answered.entries, none.entries);
    assert!(rt; none.down.is_empty());
    Ok(())
}

/// A line of 4,096 bytes has room for 682 ports of five digits.
#[test]
fn hands_over_as_many_ports_as_a_line_can_name(rt: HostRuntime) -> Result<(), Fail> {
    let mut line = Vec::new(rt.alloc());
    write!(line, "down")?;
    for port in 10000..10682u16 {
        write!(line, " {port}")?;
    }
    assert_eq!(rt; line.len(), 4096);
    let answered = answer_lines(&rt, rt.alloc(), &mut line.as_slice())?;
    assert_eq!(rt; answered.answers.as_slice(), b"ok 682\n".as_slice());
    Ok(())
}

#[test]
fn a_request_of_a_browser_orders_nothing(rt: HostRuntime) -> Result<(), Fail> {
    let lines = "jump\nPOST / HTTP/1.1\r\nHost: x\r\n\r\navailable 1 2\n";
    let answers = "fault UnknownWord\nfault UnknownWord\n";
    let unread = "Host: x\r\n\r\navailable 1 2\n";
    let answered = expect_answers(&rt, rt.alloc(), lines, answers, unread)?;
    assert!(rt; matches!(answered.end, Ok(LinesEnd::SpeaksHttp)));
    Ok(())
}

#[test]
fn a_field_line_opens_no_book(rt: HostRuntime) -> Result<(), Fail> {
    let mut reader = "Host: x\nopen v1 9001 9002\n".as_bytes();
    let mut answers = Vec::new(rt.alloc());
    let mut lines = OperatorLines::new(rt.alloc());
    let end = answer_before_open(&mut lines, &mut reader, &mut answers);
    assert!(rt; matches!(end, Ok(LinesEnd::SpeaksHttp)));
    assert_eq!(rt; answers.as_slice(), b"fault UnknownWord\n".as_slice());
    assert_eq!(rt; reader, b"open v1 9001 9002\n".as_slice());
    Ok(())
}

#[test]
fn fails_with_a_flush(rt: HostRuntime) {
    let mut lines = OperatorLines::new(rt.alloc());
    let end = answer_before_open(&mut lines, &mut BEFORE.as_bytes(), &mut Unflushed);
    assert!(rt; matches!(end, Err(RunEnd::WriteFailed)));
}
