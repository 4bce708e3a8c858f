//! `serve`: clients at the client ports, and operators at the control port.

use crate::book_opener::serve_by_journal;
use crate::context::{JournaledContext, ServeContext};
use crate::journal::{JournalRefusal, write_refusal};
use bg_access_log::AccessLog;
use bg_book::Limits;
use bg_command_line::{Connections, MessageTimeout, ServeSettings};
use bg_endpoints::{Directory, Share};
use bg_forward::RefusalBody;
use bg_loop_port::CutAnswers;
use bg_order_journal::FileOpener;
use bg_peers::Users;
use bg_ports::{
    BindFault, EventLoops, FewDescriptors, Notices, Ports, preview_workers, service_name,
};
use bg_revisions::Service;
use bg_script::{Finding, RunEnd, finding_of_input, write_finding};
use bg_strategy::Strategy;
use sqlite::{FileFrom, FileStore, Unknown};
use std::alloc::Global;
use std::io;
use std::io::{Read, Write};
use std::net::{Net, TcpListener, TcpStream};
use std::rt::Files;
use std::sync::Wait;
use std::thread::Threads;
use std::time::{Clock, SystemTime};

/// The greatest number of seats of a book.
const MOST_SEATS: u32 = 2_048;

/// The settings of a run of `serve`.
#[derive(Drop)]
pub struct RunSettings<'l, 'w> {
    pub alloc: Global,
    /// What the words of the command line set.
    pub words: ServeSettings<'w>,
    /// The timeout within which a request or a response has to be complete.
    pub timeout: MessageTimeout,
    /// The log of ended connections.
    pub log: Option<&'l AccessLog>,
    /// The users whose connections the control port serves; `None` stands for all users.
    pub operators: Option<Users>,
    /// What opens the journal of orders, if there is one.
    pub journal: Option<FileOpener<'w>>,
}

/// Reads the whole input as the JSON text of a strategy, and serves clients by this strategy and by the
/// lines of operators. Returns the exit status: 1 if the strategy has a fault, a port
/// cannot be bound or the journal cannot be used, for which it writes a line, and otherwise 0. The error is `ReadFailed` or `OutOfMemory`
/// if the strategy cannot be read, and `WriteFailed` if a write to `output` fails.
///
/// Writes `listening` after the ports are bound. The book is resumed from the journal, if there is one and it has orders; else
/// an `open` of an operator opens it. Event loops then serve
/// clients, and operators are answered up to `quit`. When all are done, it writes the report and the number of the calls
/// of requests. It writes nothing more if no book was opened.
///
/// To `errors` it writes why the strategy is not valid JSON, which of its keys look misspelt, that a
/// preview port or a list of users has no effect, which port cannot be bound and why, and why the journal cannot be used. A failed write to `errors` changes
/// nothing else.
pub fn serve<R, I: Read, W: Write, E: Write>(
    rt: &R,
    settings: &mut RunSettings,
    input: &mut I,
    output: &mut W,
    errors: &mut E,
) -> Result<u8, RunEnd>
where
    R: Files + Net<Listener = TcpListener, Stream = TcpStream> + Threads + Wait + Clock + Sync,
{
    let finding = finding_of_input(settings.alloc, input, errors)?;
    match &finding {
        Finding::Means(strategy) => serve_strategy(rt, settings, strategy, output, errors),
        finding => write_fault(finding, output),
    }
}

/// Writes the fault of the strategy. Returns the exit status.
pub(crate) fn write_fault<W: Write>(finding: &Finding, output: &mut W) -> Result<u8, RunEnd> {
    written(write_finding(finding, output))?;
    Ok(finding.status())
}

/// Binds the ports, and serves operators and clients at them.
fn serve_strategy<R, W: Write, E: Write>(
    rt: &R,
    settings: &mut RunSettings,
    strategy: &Strategy,
    output: &mut W,
    errors: &mut E,
) -> Result<u8, RunEnd>
where
    R: Files + Net<Listener = TcpListener, Stream = TcpStream> + Threads + Wait + Clock + Sync,
{
    if settings.words.preview.is_some() && strategy.preview_service.is_none() {
        write_useless_preview(errors);
    }
    if settings.operators.is_some() && settings.words.control.is_none() {
        write_useless_list(errors);
    }
    write_few_descriptors(rt, &settings.words, errors);
    let operators = settings.operators.take();
    match bind_ports(rt, settings, operators) {
        // one path for all results, since each path on which the ports are dropped is proved by itself
        Ok(ports) => {
            let end = serve_at_ports(rt, settings, strategy, &ports, output);
            ports.remove_socket_file(rt);
            write_end(settings, end, &ports, output, errors)
        }
        Err(fault) => write_bind_fault(&fault, output, errors),
    }
}

/// Writes what is left to say once clients are no longer served, or why they were not served by the journal. Returns the exit
/// status.
fn write_end<W: Write, E: Write>(
    settings: &RunSettings,
    end: Result<Result<(), RunEnd>, JournalRefusal>,
    ports: &Ports,
    output: &mut W,
    errors: &mut E,
) -> Result<u8, RunEnd> {
    match end {
        Ok(Ok(())) => {
            write_cut_responses(ports, errors);
            Ok(0)
        }
        Ok(Err(end)) => Err(end),
        Err(refusal) => {
            let path = settings.words.journal.unwrap_or("");
            write_refusal(path, &refusal, output, errors)
        }
    }
}

/// Binds the ports of the settings.
fn bind_ports<'w, R>(
    rt: &R,
    settings: &RunSettings<'_, 'w>,
    operators: Option<Users>,
) -> Result<Ports, BindFault<'w>>
where
    R: Files + Net<Listener = TcpListener, Stream = TcpStream> + Threads + Clock,
{
    let loops = EventLoops::of(rt, &settings.words);
    Ports::bind(rt, settings.alloc, &settings.words, loops, operators)
}

/// Serves operators and clients at ports that are bound.
fn serve_at_ports<R, W: Write>(
    rt: &R,
    settings: &RunSettings,
    strategy: &Strategy,
    ports: &Ports,
    output: &mut W,
) -> Result<Result<(), RunEnd>, JournalRefusal>
where
    R: Net<Listener = TcpListener, Stream = TcpStream> + Threads + Wait + Clock + Sync,
{
    let words = &settings.words;
    let most_entries = Limits::usual().entries;
    let loops = EventLoops::of(rt, words);
    let notices = Notices::new(
        settings.alloc,
        ports,
        loops,
        settings.log,
        most_entries,
    ).with_journal(words.journal);
    let previews = preview_workers(words);
    let seats = active_seats(words, loops.active).saturating_add(previews);
    let directory = directory_of(rt, settings.alloc, words);
    let context = ServeContext {
        rt,
        alloc: settings.alloc,
        strategy,
        ports,
        seats,
        previews,
        loops,
        words,
        shuts_down: words.connections == Connections::Forever,
        timeout: settings.timeout,
        log: settings.log,
        number_offset: 0,
        run: run_number(rt),
        directory: directory.as_ref(),
        refusal_body: RefusalBody::of_pages(words.error_pages),
        notices: &notices,
    };
    serve_in_context(&context, settings.journal, output)
}

/// The nanoseconds from 1970 to now; 0 if the system does not give the time.
fn run_number<R: Clock>(rt: &R) -> u64 {
    let Ok(now) = SystemTime::now(rt) else {
        return 0;
    };
    match now.duration_since(SystemTime::UNIX_EPOCH) {
        Ok(passed) => u64::try_from(passed.as_nanos()).unwrap_or(0),
        Err(_) => 0,
    }
}

/// Serves operators and clients by what they share, with the journal that this opens, if it is there.
fn serve_in_context<R, W: Write>(
    context: &ServeContext<R>,
    journal: Option<FileOpener>,
    output: &mut W,
) -> Result<Result<(), RunEnd>, JournalRefusal>
where
    R: Net<Listener = TcpListener, Stream = TcpStream> + Threads + Wait + Clock + Sync,
{
    let journaled = JournaledContext {
        serve: context,
        journal,
    };
    serve_by_journal::<R, FileStore<FileFrom<Unknown>>, FileOpener, W>(&journaled, output)
}

/// The number of seats of the active service. Each of its event loops has as many as requests may be inside at a time, so
/// that no request waits for a seat that another loop has, as far as the book has seats.
fn active_seats(words: &ServeSettings, loops: u32) -> u32 {
    let loops = loops.max(1);
    let most_of_a_loop = MOST_SEATS.saturating_sub(preview_workers(words)) / loops;
    u32::from(words.workers)
        .min(most_of_a_loop)
        .saturating_mul(loops)
}

/// The directory of endpoints; `None` without `--redispatch`.
fn directory_of<R: Clock>(rt: &R, alloc: Global, settings: &ServeSettings) -> Option<Directory> {
    if !settings.redispatch {
        return None;
    }
    let share = Share {
        given: settings.endpoint_limit,
        concurrency: u32::from(settings.workers).saturating_add(preview_workers(settings)),
    };
    Some(Directory::new(rt, alloc, share))
}

/// Writes the notice that the preview port has no effect.
fn write_useless_preview<E: Write>(errors: &mut E) {
    let _ = writeln!(
        errors,
        "bg_switch: the strategy has no previewService: requests at the preview port are answered 503"
    );
}

/// Writes the notice that the list of users has no effect.
fn write_useless_list<E: Write>(errors: &mut E) {
    let _ = writeln!(
        errors,
        "bg_switch: BG_SWITCH_OPERATORS has no effect without --control: who may write to the control socket may order"
    );
}

/// Writes that the limit on descriptors leaves few of them to pending connections, if it does.
fn write_few_descriptors<R: Threads, E: Write>(rt: &R, settings: &ServeSettings, errors: &mut E) {
    if let Some(few) = FewDescriptors::of(settings, EventLoops::of(rt, settings)) {
        let _ = writeln!(errors, "bg_switch: {few}");
    }
}

/// Writes how many responses were cut at each client port, if any were.
fn write_cut_responses<E: Write>(ports: &Ports, errors: &mut E) {
    for service in [Service::Active, Service::Preview] {
        let Some(port) = ports.of(service) else {
            continue;
        };
        let CutAnswers { answers, bytes } = port.take_cut_answers();
        if answers > 0 {
            let _ = writeln!(
                errors,
                "bg_switch: responses of the {} port that were cut: {answers}, bytes that were not written: {bytes}",
                service_name(service)
            );
        }
    }
}

/// Writes which port cannot be bound, and why. Returns the exit status.
fn write_bind_fault<W: Write, E: Write>(
    fault: &BindFault,
    output: &mut W,
    errors: &mut E,
) -> Result<u8, RunEnd> {
    let _ = writeln!(errors, "bg_switch: {fault}");
    written(writeln!(output, "fault Bind"))?;
    Ok(1)
}

/// Writes that the ports are bound, and flushes.
pub(crate) fn write_listening<W: Write>(output: &mut W) -> Result<(), RunEnd> {
    written(writeln!(output, "listening"))?;
    written(output.flush())
}

/// The end of the run if a write failed.
pub(crate) fn written(outcome: io::Result<()>) -> Result<(), RunEnd> {
    match outcome {
        Ok(()) => Ok(()),
        Err(_) => Err(RunEnd::WriteFailed),
    }
}
