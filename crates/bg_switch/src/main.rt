//! A blue-green traffic switch: the program.
#![tactic(auto)]

mod audit;
mod book_opener;
mod buffered_output;
mod context;
mod journal;
mod journal_files;
mod kernel_clock;
mod loop_settings;
mod loops;
mod operator_users;
mod operators;
mod restart;
mod revision_ports;
mod serve;
mod serving;

use crate::audit::judge_journal;
use crate::buffered_output::{check_buffered, replay_buffered};
use crate::operator_users::operator_users;
use crate::restart::{Restart, restart_journal};
use crate::serve::{RunSettings, serve};
use bg_access_log::AccessLog;
use bg_command_line::{
    Invocation, InvocationFault, MessageTimeout, ServeSettings, TIMEOUT_VARIABLE,
    parse_command_line,
};
use bg_order_journal::FileOpener;
use bg_script::RunEnd;
use std::alloc::{AllocError, Global};
use std::env::VarError;
use std::io::{ErrorKind, Read, Write};
use std::net::{Net, TcpListener, TcpStream};
use std::process::ExitCode;
use std::rt::{Env, Files};
use std::sync::Wait;
use std::thread::Threads;
use std::time::Clock;
use std::{env, io};

/// The environment variable that gives the path of the access log; `-` is standard error.
const ACCESS_LOG_VARIABLE: &str = "BG_SWITCH_ACCESS_LOG";

/// The word that stands for all words if one of them is not UTF-8.
const NO_TEXT: &str = "\u{FFFD}";

/// Reads the program's words, and carries out what they ask for over standard input and standard output.
///
/// The exit status is 0, also after `--version`, or 1 after a fault. It is 2 after words that are
/// wrong, and after `--help`, whose text goes to standard error. It is 1 if the run ends early; the reason
/// goes to standard error. It is also 1 if the access log cannot be opened, or the list of operators or the journal cannot
/// be used; a notice says why.
fn main(rt: HostRuntime) -> ExitCode {
    let Ok(texts) = process_texts(&rt) else {
        return ended(&rt, RunEnd::OutOfMemory);
    };
    let Ok(words) = words_of(rt.alloc(), &texts) else {
        return ended(&rt, RunEnd::OutOfMemory);
    };
    let invocation = match parse_command_line(rt.alloc(), &words) {
        Ok(invocation) => invocation,
        Err(fault) => return ended_without_invocation(&rt, &fault),
    };
    let done = match invocation {
        Invocation::Check => checked(&rt),
        Invocation::Replay { seats } => replayed(&rt, seats),
        Invocation::Journal { path } => {
            judge_journal(&rt, path, &mut rt.stdout(), &mut rt.stderr())
        }
        Invocation::RestartJournal { path, ports } => {
            let (mut input, mut output, mut errors) = (rt.stdin(), rt.stdout(), rt.stderr());
            let restart = Restart { path, ports };
            restart_journal(&rt, &restart, &mut input, &mut output, &mut errors)
        }
        Invocation::Serve(words) => {
            let (mut input, mut output, mut errors) = (rt.stdin(), rt.stdout(), rt.stderr());
            let asked = AskedRun::of(&rt, words);
            served(&rt, asked, &mut input, &mut output, &mut errors)
        }
    };
    match done {
        Ok(status) => ExitCode::from(status),
        Err(end) => ended(&rt, end),
    }
}

/// Carries out `check`. After the output was written, writes hints about the text of the strategy to standard
/// error. Returns the exit status.
fn checked(rt: &HostRuntime) -> Result<u8, RunEnd> {
    let mut hints = Vec::new(rt.alloc());
    let (status, _stdout) = check_buffered(rt.alloc(), &mut rt.stdin(), rt.stdout(), &mut hints)?;
    write_hints(rt, &hints);
    Ok(status)
}

/// Carries out `replay`. After the output was written, writes hints about the text of the strategy to standard
/// error. Returns the exit status.
fn replayed(rt: &HostRuntime, seats: u8) -> Result<u8, RunEnd> {
    let mut hints = Vec::new(rt.alloc());
    let (status, _stdout) = replay_buffered(
        rt.alloc(),
        seats,
        &mut rt.stdin(),
        rt.stdout(),
        &mut hints,
    )?;
    write_hints(rt, &hints);
    Ok(status)
}

/// Writes hints to standard error. A failed write changes nothing else.
fn write_hints(rt: &HostRuntime, hints: &[u8]) {
    let _ = rt.stderr().write_all(hints);
}

/// What the words ask of `serve`.
#[derive(Drop)]
struct AskedRun<'w> {
    words: ServeSettings<'w>,
    /// What opens the journal, if the words name one.
    journal: Option<FileOpener<'w>>,
}

impl<'w> AskedRun<'w> {
    fn of(rt: &'w HostRuntime, words: ServeSettings<'w>) -> AskedRun<'w> {
        let journal = match words.journal {
            Some(path) => Some(FileOpener { rt, path }),
            None => None,
        };
        AskedRun { words, journal }
    }
}

/// Carries out `serve` with the settings of the words and of the environment. Returns the exit status.
fn served<R, I: Read, W: Write, E: Write>(
    rt: &R,
    asked: AskedRun,
    input: &mut I,
    output: &mut W,
    errors: &mut E,
) -> Result<u8, RunEnd>
where
    R: Files + Net<Listener = TcpListener, Stream = TcpStream> + Threads + Wait + Clock + Sync,
    R: Env + AllocGlobal,
{
    let timeout = message_timeout(rt, errors);
    let Ok(operators) = operator_users(rt, errors) else {
        return Ok(1);
    };
    let Ok(log) = access_log(rt, errors) else {
        return Ok(1);
    };
    let mut settings = RunSettings {
        alloc: rt.alloc(),
        words: asked.words,
        timeout,
        log: log.as_ref(),
        operators,
        journal: asked.journal,
    };
    serve(rt, &mut settings, input, output, errors)
}

/// The message timeout that the environment sets. Writes a notice if the environment gives no usable
/// number.
fn message_timeout<R: Env + AllocGlobal, E: Write>(rt: &R, errors: &mut E) -> MessageTimeout {
    let timeout = MessageTimeout::from_environment(rt);
    if timeout == MessageTimeout::Unusable {
        let seconds = timeout.seconds();
        let _ = writeln!(
            errors,
            "bg_switch: {TIMEOUT_VARIABLE} is no number from 1 to 3600; messages may take {seconds} seconds"
        );
    }
    timeout
}

/// The access log that the environment asks for, if any. An error, and a notice, if the variable cannot
/// be read as a text, or if the log cannot be opened.
fn access_log<R: Env + AllocGlobal, E: Write>(
    rt: &R,
    errors: &mut E,
) -> io::Result<Option<AccessLog>> {
    let path = match env::var(rt, ACCESS_LOG_VARIABLE) {
        Ok(path) => path,
        Err(VarError::NotPresent) => return Ok(None),
        Err(reason) => {
            let _ = writeln!(
                errors,
                "bg_switch: {ACCESS_LOG_VARIABLE} can't be read: {reason}"
            );
            return Err(io::Error::from(ErrorKind::InvalidInput));
        }
    };
    match AccessLog::open(rt.alloc(), path.as_str()) {
        Ok(log) => Ok(Some(log)),
        Err(reason) => {
            let _ = writeln!(
                errors,
                "bg_switch: the access log {path} can't be opened: {reason}"
            );
            Err(reason)
        }
    }
}

/// Writes the version, or why the words are wrong.
fn ended_without_invocation(rt: &HostRuntime, fault: &InvocationFault) -> ExitCode {
    match fault {
        InvocationFault::Words(version) if fault.asks_for_version() => match print!(rt;
            "{version}"
        ) {
            Ok(()) => ExitCode::SUCCESS,
            Err(_) => ended(rt, RunEnd::WriteFailed),
        },
        InvocationFault::Words(error) => {
            let _ = eprint!(rt; "{error}");
            ExitCode::from(2)
        }
        InvocationFault::OutOfMemory => ended(rt, RunEnd::OutOfMemory),
    }
}

/// Writes why a run ended early.
fn ended(rt: &HostRuntime, end: RunEnd) -> ExitCode {
    let _ = eprintln!(rt; "{end:?}");
    ExitCode::FAILURE
}

/// The texts of the process's words; `None` if a word is not UTF-8. The only error is an allocation failure.
fn process_texts<R: Env + AllocGlobal>(rt: &R) -> Result<Option<Vec<String>>, AllocError> {
    match env::args(rt) {
        Ok(texts) => Ok(Some(texts.collect(rt.alloc())?)),
        Err(error) if error.kind() == ErrorKind::OutOfMemory => Err(AllocError),
        Err(_) => Ok(None),
    }
}

/// The words that these texts are. Without texts, the word U+FFFD stands for all words.
fn words_of(alloc: Global, texts: &Option<Vec<String>>) -> Result<Vec<&str>, AllocError> {
    match texts {
        Some(texts) => texts.iter().map(|text| text.as_str()).collect(alloc),
        None => Ok(vec![in alloc; "bg_switch", NO_TEXT]?),
    }
}
