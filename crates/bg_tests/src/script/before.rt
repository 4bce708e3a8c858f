//! Lines with a time limit, over memory. The boot clock reads 0 first, and 1 more at each reading.

use crate::script::control::{Answered, Way, answer_lines, answer_within};
use bg_book::Limits;
use bg_operator::parse_line;
use bg_script::LinesEnd;
use std::alloc::Global;
use std::io::Write;
use std::sync::Wait;
use std::test::Fail;

/// The clock is read once for each line `before`.
const LINES: &str =
    "before 1 available 1 2\nbefore 1 tick 1\nbefore 1 tick 2\ntick 3\nbefore 4 tick 2\nbefore 18446744073709551615 promote\nbefore 0 promote\n  before  000007  tick  4 \nbefore 6 tick 5\nreport\n";

const ANSWERS: &str =
    "ok 0\nrefused TooLate\nrefused TooLate\nok 0\nrefused MomentBack\nrefused NotPaused\nrefused TooLate\nok 0\nrefused TooLate
moment 4
phase steady
active 1
preview 1
stable 1
newest 1
revision 1 v1 desired 2 available 2 open 0 deadline none
end
";

/// Each line, and the name of its fault.
const FAULTS: [(&str, &str); 20] = [
    ("before", "WrongCount"),
    ("before 5", "WrongCount"),
    ("before promote", "WrongCount"),
    ("before x jump", "BadNumber"),
    ("before -1 promote", "BadNumber"),
    ("before 18446744073709551616 promote", "BadNumber"),
    ("before 000000000000000000005 promote", "BadNumber"),
    ("before 5 jump", "UnknownWord"),
    ("before 5 tick", "WrongCount"),
    ("before 5 promote half", "BadWord"),
    ("before 5 tick x", "BadNumber"),
    ("before 5 report", "BadWord"),
    ("before 5 report now", "WrongCount"),
    ("before 5 before 6 promote", "BadWord"),
    ("before 5 before", "BadWord"),
    ("before 5 open v1 9001", "BadWord"),
    ("before 5 open v1", "WrongCount"),
    ("before 5 down 9001", "BadWord"),
    ("before 5 down x", "BadNumber"),
    ("before 5 enter 0 active", "BadWord"),
];

/// Each event, and most of their refusals.
const EVENTS: [&str; 16] = [
    "promote",
    "available 1 2",
    "deploy v2 9101 9102",
    "deploy v2 9101 9102",
    "verdict pre failed",
    "verdict post error",
    "promote full",
    "available 2 2",
    "tick 30",
    "tick 29",
    "deploy v3 9201 9202",
    "abort",
    "abort",
    "retry",
    "available 3 2",
    "deploy v1 9001 9002",
];

/// The third tick and the first report of fewer endpoints find no room in a history of 143 places, so the entry of a tick
/// is dropped. The last event finds no room, and nothing can be dropped.
const FULL: [&str; 6] = [
    "available 1 2",
    "tick 1",
    "tick 2",
    "tick 3",
    "available 1 1",
    "available 1 2",
];

const FULL_ANSWERS: &str = "ok 0\nok 0\nok 0\nok 0\nok 0\nrefused HistoryFull\n";

#[test]
fn carries_out_what_comes_in_time(rt: HostRuntime) -> Result<(), Fail> {
    let answered = answer_lines(&rt, rt.alloc(), &mut LINES.as_bytes())?;
    assert!(rt; matches!(answered.end, Ok(LinesEnd::End)));
    assert_eq!(rt; answered.answers.as_slice(), ANSWERS.as_bytes());
    assert_eq!(rt; answered.readings, 8);
    Ok(())
}

/// The name of the fault of a line, if it has one.
fn fault_of(alloc: Global, line: &str) -> Option<&'static str> {
    match parse_line(alloc, line.as_bytes()) {
        Ok(_) => None,
        Err(fault) => Some(fault.name()),
    }
}

#[test]
fn names_the_first_fault(rt: HostRuntime) {
    for (line, name) in &FAULTS {
        assert_eq!(rt; fault_of(rt.alloc(), line), Some(*name), "{line}");
    }
}

/// Answers these lines, each with this text in front, by a history of so many places.
fn answer_after<R: Wait>(
    rt: &R,
    alloc: Global,
    entries: u64,
    front: &str,
    lines: &[&str],
) -> Result<Answered, Fail> {
    let mut text = Vec::new(alloc);
    for line in lines {
        writeln!(text, "{front}{line}")?;
    }
    let limits = Limits {
        entries,
        numbers: 1 << 53,
    };
    answer_within(rt, alloc, limits, &mut text.as_slice(), Way::Together)
}

/// In time, the answers, the history and the count of events without room are those of the events alone.
#[test]
fn answers_in_time_as_without_before(rt: HostRuntime) -> Result<(), Fail> {
    let alone = answer_after(&rt, rt.alloc(), 10000, "", &EVENTS)?;
    let before = answer_after(&rt, rt.alloc(), 10000, "before 100 ", &EVENTS)?;
    assert_eq!(rt; before.answers, alone.answers);
    assert_eq!(rt; before.entries, alone.entries);
    assert_eq!(rt; before.readings, 16);
    assert_eq!(rt; alone.readings, 0);
    Ok(())
}

#[test]
fn compacts_a_full_history(rt: HostRuntime) -> Result<(), Fail> {
    let before = answer_after(&rt, rt.alloc(), 143, "before 100 ", &FULL)?;
    assert_eq!(rt; before.answers.as_slice(), FULL_ANSWERS.as_bytes());
    assert_eq!(rt; before.refused_for_room, 1);
    Ok(())
}

/// The clock is not below 0, so no event is recorded.
#[test]
fn records_nothing_too_late(rt: HostRuntime) -> Result<(), Fail> {
    let none = answer_lines(&rt, rt.alloc(), &mut "".as_bytes())?;
    let late = answer_after(&rt, rt.alloc(), 10000, "before 0 ", &EVENTS)?;
    let mut refusals = Vec::new(rt.alloc());
    for _ in &EVENTS {
        writeln!(refusals, "refused TooLate")?;
    }
    assert_eq!(rt; late.answers, refusals);
    assert_eq!(rt; late.entries, none.entries);
    assert_eq!(rt; late.refused_for_room, 0);
    Ok(())
}
