//! `check` and `replay` over readers and writers that are slow or fail. Their answers are in rows/.
use crate::script::streams::{Failing, Page, Slow};
use bg_script::{RunEnd, check, replay};
use std::alloc::Global;
use std::io;
use std::io::{Read, Write};
use std::process::Abort;
use std::test::Fail;

/// The command that is run.
#[derive(Clone, Copy, Drop)]
enum Command {
    Check,
    /// With one seat.
    Replay,
}

/// A strategy, a fault, a script, a script with a fault, and a script through a switch.
const RUNS: [(Command, &str); 5] = [
    (
        Command::Check,
        "{\"spec\": {\"strategy\": {\"blueGreen\": {\"activeService\": \"web\"}}}}",
    ),
    (Command::Check, "{\"spec\": 5}"),
    (
        Command::Replay,
        "{\"spec\":{\"strategy\":{\"blueGreen\":{\"activeService\":\"web\"}}}}\r\n---\nopen v1 9001\r\navailable 1 1\nenter 0 active\nreport",
    ),
    (
        Command::Replay,
        "{\"spec\":{\"strategy\":{\"blueGreen\":{\"activeService\":\"web\"}}}}\n---\nopen\nopen v1 9001\nquit\nreport\n",
    ),
    (Command::Replay, DRAINING),
];

/// A revision drains before it is scaled down.
const DRAINING: &str =
    "{\"spec\": {\"replicas\": 2, \"strategy\": {\"blueGreen\": {\"activeService\": \"web\"}}}}\n---\nopen v1 9001 9002\navailable 1 2\nenter 0 active\ndeploy v2 9101 9102\navailable 2 2\ntick 30\nreport\nleave 0\nreport\n";

/// Runs a command.
fn run<R: Read, W: Write>(
    alloc: Global,
    command: Command,
    reader: &mut R,
    writer: &mut W,
) -> Result<u8, RunEnd> {
    match command {
        Command::Check => check(alloc, reader, writer, &mut io::sink()),
        Command::Replay => replay(alloc, 1, reader, writer, &mut io::sink()),
    }
}

#[test]
fn reads_and_writes_byte_by_byte(rt: HostRuntime) -> Result<(), Fail> {
    for (command, input) in &RUNS {
        let mut reader = input.as_bytes();
        let mut writer = Vec::new(rt.alloc());
        let status = run(rt.alloc(), *command, &mut reader, &mut writer);
        assert!(rt; status.is_ok(), "{input}");

        let mut slow_reader = Slow::new(input.as_bytes(), 1000);
        let mut slow_writer = Page::new();
        let slow_status = run(rt.alloc(), *command, &mut slow_reader, &mut slow_writer);
        assert_eq!(rt; slow_status, status, "{input}");
        assert_eq!(rt; slow_writer.as_slice(), writer.as_slice(), "{input}");
    }
    Ok(())
}

#[test]
fn fails_with_each_read(rt: HostRuntime) {
    fails_with_each_call(&rt, rt.alloc(), Calls::Reads, 1000, RunEnd::ReadFailed);
}

#[test]
fn fails_with_each_write(rt: HostRuntime) {
    fails_with_each_call(&rt, rt.alloc(), Calls::Writes, 200, RunEnd::WriteFailed);
}

/// The calls of which only some succeed.
#[derive(Clone, Copy, Drop)]
enum Calls {
    /// Reads of one byte.
    Reads,
    Writes,
}

/// Runs a command of whose calls this many succeed.
fn run_with(
    alloc: Global,
    calls: Calls,
    count: usize,
    command: Command,
    input: &str,
) -> Result<u8, RunEnd> {
    let mut bytes = input.as_bytes();
    match calls {
        Calls::Reads => run(
            alloc,
            command,
            &mut Slow::new(bytes, count),
            &mut Page::new(),
        ),
        Calls::Writes => run(
            alloc,
            command,
            &mut bytes,
            &mut Failing { writes_left: count },
        ),
    }
}

/// Each run needs some calls, but fewer than `most`. With fewer calls than it needs, it ends in this way.
fn fails_with_each_call(rt: &impl Abort, alloc: Global, calls: Calls, most: usize, end: RunEnd) {
    for (command, input) in &RUNS {
        let needed = calls_needed(alloc, calls, most, end, (*command, *input));
        assert!(rt; 0 < needed && needed < most, "{input}");
        assert!(rt;
            run_with(alloc, calls, needed, *command, input).is_ok(),
            "{input}"
        );
    }
}

/// The number of calls with which a run doesn't end in this way; at most `most`.
fn calls_needed(
    alloc: Global,
    calls: Calls,
    most: usize,
    end: RunEnd,
    (command, input): (Command, &str),
) -> usize {
    for count in 0..most {
        if run_with(alloc, calls, count, command, input) != Err(end) {
            return count;
        }
    }
    most
}

/// The status of a script that comes byte by byte, and what was not read of it.
fn replay_slowly(alloc: Global, input: &str) -> (Result<u8, RunEnd>, &[u8]) {
    let mut reader = Slow::new(input.as_bytes(), 1000);
    let status = replay(alloc, 1, &mut reader, &mut Page::new(), &mut io::sink());
    (status, reader.unread())
}

#[test]
fn reads_nothing_after_quit(rt: HostRuntime) {
    let input =
        "{\"spec\":{\"strategy\":{\"blueGreen\":{\"activeService\":\"web\"}}}}\n---\nopen v1 9001\nquit\nreport\n";
    let (status, unread) = replay_slowly(rt.alloc(), input);
    assert_eq!(rt; status, Ok(0));
    assert_eq!(rt; unread, b"report\n".as_slice());
}

#[test]
fn reads_nothing_after_a_fault_of_the_strategy(rt: HostRuntime) {
    let input = "{\"spec\": 5}\n---\nopen v1 9001\n";
    let (status, unread) = replay_slowly(rt.alloc(), input);
    assert_eq!(rt; status, Ok(1));
    assert_eq!(rt; unread, b"open v1 9001\n".as_slice());
}

#[test]
fn cut_lines(rt: HostRuntime) {
    let input = DRAINING.as_bytes();
    for length in 0..input.len() {
        let (mut reader, _cut_off) = input.split_at(length);
        let status = replay(
            rt.alloc(),
            1,
            &mut reader,
            &mut Vec::new(rt.alloc()),
            &mut io::sink(),
        );
        assert!(rt; status.is_ok(), "{length} bytes");
    }
}
