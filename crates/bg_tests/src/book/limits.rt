//! Scripts whose history becomes full, or whose numbers are spent.
use super::samples::strategy;
use crate::desk::rows::{Played, play_book};
use crate::history::texts::lines_of;
use bg_book::Limits;
use std::alloc::Global;
use std::io;
use std::io::Write;
use std::test::Fail;

/// The most entries, the highest number of a request, the lines after `open v1 9001 9002`, the answers, and what the
/// history shows at the end.
type Row = (u64, u64, &'static str, &'static str, &'static str);

static ROWS: [Row; 2] = [
    // a book whose history is full has room again after it is compacted
    (
        150,
        1 << 53,
        "available 1 2
enter 0 active
leave 0
enter 0 active
leave 0
tick 1
enter 0 active
leave 0
enter 0 active
leave 0
tick 2
compact
tick 2
enter 0 active
leave 0",
        "ok 0
entered 1 revision 1 port 9002
left 1 revision 1
entered 2 revision 1 port 9001
left 2 revision 1
ok 0
entered 3 revision 1 port 9002
left 3 revision 1
entered 4 revision 1 port 9001
left 4 revision 1
refused HistoryFull
compacted 8
ok 0
entered 5 revision 1 port 9002
left 5 revision 1
",
        "closed 4
closed 0
closed 0
closed 0
Available { revision: 1, size: 2 }
Tick(1)
Tick(2)
Enter { seat: 0, service: Active, number: 5, revision: 1, port: 9002 }
Leave { seat: 0, number: 5, revision: 1 }
",
    ),
    // no number above the limit is given
    (
        1000,
        1,
        "available 1 2
enter 0 active
leave 0
enter 0 active",
        "ok 0
entered 1 revision 1 port 9002
left 1 revision 1
refused NumbersSpent
",
        "closed 0
closed 0
closed 0
closed 0
Available { revision: 1, size: 2 }
Enter { seat: 0, service: Active, number: 1, revision: 1, port: 9002 }
Leave { seat: 0, number: 1, revision: 1 }
",
    ),
];

/// Plays a script at a book with these limits.
fn play(alloc: Global, limits: Limits, script: &str) -> Result<Played, Fail> {
    let strategy = strategy(alloc)?;
    play_book(alloc, &strategy, limits, &lines_of(alloc, script)?)
}

#[test]
fn limits_are_kept(rt: HostRuntime) -> Result<(), Fail> {
    for (entries, numbers, script, answers, shown) in &ROWS {
        let limits = Limits {
            entries: *entries,
            numbers: *numbers,
        };
        let played = play(rt.alloc(), limits, script)?;
        let is_expected = played.answers.as_slice() == answers.as_bytes()
            && played.entries.as_slice() == shown.as_bytes();
        assert!(rt; is_expected, "{script}");
    }
    Ok(())
}

/// The number of requests that leave before the history is full.
const ROUNDS: u32 = 64;

/// Writes the lines that fill a history of 141 entries, and the answers to them. At the end there is room for each
/// leaving, and for no other entry.
fn write_full(lines: &mut Vec<u8>, answers: &mut Vec<u8>) -> io::Result<()> {
    writeln!(lines, "available 1 2\ntick 1")?;
    writeln!(answers, "ok 0\nrefused HistoryFull")?;
    for round in 0..ROUNDS {
        let number = round + 1;
        let port = if number % 2 == 1 { 9002 } else { 9001 };
        writeln!(lines, "enter 0 active\nleave 0")?;
        writeln!(
            answers,
            "entered {number} revision 1 port {port}\nleft {number} revision 1"
        )?;
    }
    writeln!(
        lines,
        "enter 0 active\nenter 1 active\nenter 2 active\nenter 3 active\nleave 0\nleave 1\nleave 2"
    )?;
    writeln!(
        answers,
        "entered 65 revision 1 port 9002\nentered 66 revision 1 port 9001\nentered 67 revision 1 port 9002
refused HistoryFull\nleft 65 revision 1\nleft 66 revision 1\nleft 67 revision 1"
    )
}

#[test]
fn a_full_history_has_room_for_each_leaving(rt: HostRuntime) -> Result<(), Fail> {
    let mut lines = Vec::new(rt.alloc());
    let mut answers = Vec::new(rt.alloc());
    write_full(&mut lines, &mut answers)?;
    let Ok(script) = str::from_utf8(&lines) else {
        return Err(Fail::new("the script is no text"));
    };
    let limits = Limits {
        entries: 141,
        numbers: 1 << 53,
    };
    let played = play(rt.alloc(), limits, script)?;
    assert!(rt;
        played.answers == answers,
        "{}",
        played.answers.escape_ascii()
    );
    Ok(())
}
