//! `journal --restart`: puts a new journal in the place of one that no process has open.
ghost use Rattle.std.specs.Prelude.{◌≡◌, IfOk, IfSome};
ghost use Rattle.bg_ledger.specs.Blanks.{AreAllFor};
ghost use Rattle.bg_switch.specs.Restarted.{IsStableAtEnd, IsStableIn, ports_from_now};

use crate::audit::report_end;
use crate::journal::{JournalRefusal, resumed_book, write_journal_fault};
use crate::journal_files::{JournalFiles, remove_copy};
use crate::serve::{write_fault, written};
use bg_book::{Book, Limits, ResumeFault, RolloutOpening, SeatLimit};
use bg_ledger::{Blanks, Names};
use bg_order_journal::{
    FileOpener, OpensJournal, Resumption, StartFault, StoredOrders, begin_in_file, open_journal,
    recorded_strategy,
};
use bg_revisions::{Name, Ports, Revision};
use bg_script::{Finding, FirstRevision, RunEnd, finding_of_input};
use bg_strategy::Strategy;
use sqlite::{Alter, FileFrom, FileStore, Unknown};
use std::alloc::{AllocError, Global};
use std::io;
use std::io::{Read, Write};
use std::marker::Brand;
use std::rt::Files;
use thiserror::Error;

/// Why a journal is not restarted. Except for `Unsettled` the file has the old journal.
#[derive(Clone, Copy, Debug, Drop, Error)]
pub enum RestartFault {
    /// The old journal cannot be used, or no book is opened with what the new one begins with.
    #[error("{0}")]
    Journal(JournalRefusal),
    /// The file is not there, or is empty.
    #[error("it is not there, or is empty")]
    Missing,
    /// `--ports` is not a list of ports.
    #[error("--ports is no list of ports, as 9001,9002")]
    BadPorts,
    /// A copy of the old journal cannot be made, or the new one cannot take its place.
    #[error("{0}")]
    Files(io::Error),
    /// The new journal is in its place, and the folder cannot be flushed: after a crash the file may be the old one.
    #[error("it was restarted, and a crash may undo that: {0}")]
    Unsettled(io::Error),
}

impl From<JournalRefusal> for RestartFault {
    fn from(refusal: JournalRefusal) -> RestartFault {
        RestartFault::Journal(refusal)
    }
}

impl From<StartFault> for RestartFault {
    fn from(fault: StartFault) -> RestartFault {
        RestartFault::Journal(JournalRefusal::Start(fault))
    }
}

impl From<ResumeFault> for RestartFault {
    fn from(fault: ResumeFault) -> RestartFault {
        RestartFault::Journal(JournalRefusal::Resume(fault))
    }
}

impl From<AllocError> for RestartFault {
    fn from(_refused: AllocError) -> RestartFault {
        RestartFault::Journal(JournalRefusal::Start(StartFault::OutOfMemory))
    }
}

impl From<io::Error> for RestartFault {
    fn from(error: io::Error) -> RestartFault {
        RestartFault::Files(error)
    }
}

/// The journal that is to be restarted, and what the new one begins with.
#[derive(Drop)]
pub struct Restart<'a> {
    /// The path of the journal.
    pub path: &'a str,
    /// The ports of the stable revision from then on, as `9001,9002`; `None` stands for those that it has.
    pub ports: Option<&'a str>,
}

/// Reads the whole input as the JSON text of a strategy, and puts a journal in the place of the one in a file: it begins with this
/// strategy, and with the revision that is stable at the end of the old one. Before that, a copy of the old one is made beside
/// it: FILE.1, or the first number that is free. Writes the report of the new journal. Returns the exit status: 1 if the strategy
/// has a fault or the journal cannot be restarted, for which it writes a line, and otherwise 0; `errors` gets the reason.
///
/// At each moment the file has the old journal whole, or the new one. The error is `ReadFailed` or `OutOfMemory` if the strategy
/// cannot be read, and `WriteFailed` if a write to `output` fails.
pub fn restart_journal<I: Read, W: Write, E: Write>(
    rt: &HostRuntime,
    restart: &Restart,
    input: &mut I,
    output: &mut W,
    errors: &mut E,
) -> Result<u8, RunEnd> {
    let alloc = rt.alloc();
    let finding = finding_of_input(alloc, input, errors)?;
    let Finding::Means(strategy) = &finding else {
        return write_fault(&finding, output);
    };
    let mut report = Vec::new(alloc);
    match restart_with(rt, restart, strategy, &mut report) {
        Ok(()) => {
            written(output.write_all(&report))?;
            Ok(0)
        }
        Err(fault) => {
            let path = restart.path;
            let _ = writeln!(
                errors,
                "bg_switch: the journal {path} can't be restarted: {fault}"
            );
            write_journal_fault(output)
        }
    }
}

/// Restarts a journal with a strategy, and writes the report of the new one to `report`.
fn restart_with(
    rt: &HostRuntime,
    restart: &Restart,
    strategy: &Strategy,
    report: &mut Vec<u8>,
) -> Result<(), RestartFault> {
    let alloc = rt.alloc();
    let ports = given_ports(alloc, restart.ports)?;
    let Some(files) = JournalFiles::of(rt, restart.path)? else {
        return Err(RestartFault::Missing);
    };
    let old = FileOpener {
        rt,
        path: files.path(),
    };
    let fresh = FileOpener {
        rt,
        path: files.fresh_path(),
    };
    let new = NewJournal {
        files: &files,
        opener: fresh,
        strategy,
        ports,
    };
    restarted::<HostRuntime, FileStore<FileFrom<Unknown>>, FileOpener>(rt, old, &new, report)
}

/// The ports that a text gives, as `9001,9002`; `None` without a text.
fn given_ports(alloc: Global, text: Option<&str>) -> Result<Option<Ports>, RestartFault> {
    let Some(text) = text else {
        return Ok(None);
    };
    let mut numbers = Vec::new(alloc);
    for word in text.split(',') {
        match word.parse::<u16>() {
            Ok(number) => push_port(&mut numbers, number)?,
            Err(_) => return Err(RestartFault::BadPorts),
        }
    }
    Ok(Some(Ports::from_vec(alloc, numbers)?))
}

fn push_port(numbers: &mut Vec<u16>, number: u16) -> Result<(), AllocError> {
    numbers.push(number)?;
    Ok(())
}

/// The journal that takes the place of another one.
#[derive(Drop)]
struct NewJournal<'a, O: Drop> {
    files: &'a JournalFiles,
    opener: O,
    strategy: &'a Strategy,
    /// The ports of the stable revision, if they are other ones from then on.
    ports: Option<Ports>,
}

/// What a journal begins with beside its strategy.
#[derive(Drop)]
struct Begin {
    first: FirstRevision,
    /// The bound behind which the numbers of requests begin.
    numbers: u64,
}

/// Judges the old journal, copies it, and puts the new one in its place. The old one stays open until then, so that no other
/// process opens it.
fn restarted<R: Files + AllocGlobal, S: Alter + Drop, O: OpensJournal<S> + Copy>(
    rt: &R,
    old: O,
    new: &NewJournal<O>,
    report: &mut Vec<u8>,
) -> Result<(), RestartFault> {
    let (_held, begin) = judged_for::<S, O>(rt.alloc(), old, new)?;
    let copy = new.files.copy(rt)?;
    match put_in_place::<R, S, O>(rt, new, begin, report) {
        Ok(()) => match new.files.settle(rt) {
            Ok(()) => Ok(()),
            Err(error) => Err(RestartFault::Unsettled(error)),
        },
        Err(fault) => {
            remove_copy(rt, copy.as_str());
            Err(fault)
        }
    }
}

/// Judges the old journal, and whether a book can be opened with what the new one begins with. Then moves what the log of the old
/// one still has into its file. Gives the old one, which is open, and what the new one begins with.
fn judged_for<S: Alter + Drop, O: OpensJournal<S> + Copy>(
    alloc: Global,
    old: O,
    new: &NewJournal<O>,
) -> Result<(StoredOrders<S, O>, Begin), RestartFault> {
    let Some(kept) = recorded_strategy::<S, O>(alloc, &old)? else {
        return Err(RestartFault::Journal(JournalRefusal::NotBegun));
    };
    match open_journal::<S, O>(alloc, old, &kept)? {
        Some(resumption) => {
            let begin = Begin {
                first: judged_first(alloc, &kept, &resumption, new)?,
                numbers: resumption.numbers,
            };
            Ok((resumption.into_file()?, begin))
        }
        None => Err(RestartFault::Journal(JournalRefusal::NotBegun)),
    }
}

/// The first revision of the new journal, with which a book can be opened.
fn judged_first<S: Alter + Drop, O: OpensJournal<S>>(
    alloc: Global,
    kept: &Strategy,
    old: &Resumption<S, O>,
    new: &NewJournal<O>,
) -> Result<FirstRevision, RestartFault> {
    let blanks = Blanks::new();
    let stable = stable_of::<Brand, S, O>(alloc, kept, blanks, old)?;
    let first = with_ports(alloc, stable, &new.ports)?;
    judge_first(alloc, new.strategy, &first)?;
    Ok(first)
}

/// Judges whether a book with one seat can be opened with a strategy and a first revision.
fn judge_first(
    alloc: Global,
    strategy: &Strategy,
    first: &FirstRevision,
) -> Result<(), ResumeFault> {
    let blanks = Blanks::new();
    judge_opening::<Brand>(alloc, strategy, blanks, first)
}

/// The revision that is stable at the end of a journal.
fn stable_of<N: Names, S: Alter, O: OpensJournal<S>>(
    alloc: Global,
    strategy: &Strategy,
    blanks: Blanks,
    resumption: &Resumption<S, O>,
) -> Result<FirstRevision, RestartFault>
    requires blanks { AreAllFor N.Names blanks }
    requires seats { N.seats ≡ 1 }
    ensures { IfOk result (IsStableAtEnd strategy.now resumption.now.first resumption.now.entries.items) }
{
    let (book, seats) = resumed_book::<N, S, O>(alloc, strategy, 1, blanks, resumption)?;
    let stable = stable_in(alloc, &book);
    let _history = book.close(seats);
    match stable {
        Some(stable) => Ok(stable),
        None => Err(RestartFault::from(AllocError)),
    }
}

/// The stable revision of a book. `None` if an allocation fails.
fn stable_in<N: Names>(alloc: Global, book: &Book<N>) -> Option<FirstRevision>
    ensures { IfSome result (IsStableIn book.now) }
{
    let stable = book.selectors().stable;
    for place in 0..book.count() {
        match book.revision(place) {
            Some(revision) if revision.number == stable => return template_of(alloc, revision),
            _ => {}
        }
    }
    None
}

/// The name and the ports of a revision. `None` if an allocation fails.
fn template_of(alloc: Global, revision: &Revision) -> Option<FirstRevision>
    ensures name { IfSome result (λ first. first.name ≡ revision.now.name) }
    ensures ports { IfSome result (λ first. first.ports ≡ revision.now.ports) }
{
    Some(FirstRevision {
        name: Name::new(alloc, revision.name.get()).ok()?,
        ports: Ports::new(alloc, revision.ports.get()).ok()?,
    })
}

/// A revision with other ports, if some are given.
fn with_ports(
    alloc: Global,
    stable: FirstRevision,
    ports: &Option<Ports>,
) -> Result<FirstRevision, AllocError>
    ensures name { IfOk result (λ first. first.name ≡ stable.name) }
    ensures ports { IfOk result (λ first. first.ports ≡ ports_from_now ports.now stable) }
{
    match ports {
        Some(ports) => Ok(FirstRevision {
            name: Name::new(alloc, stable.name.get())?,
            ports: Ports::new(alloc, ports.get())?,
        }),
        None => Ok(stable),
    }
}

/// Opens a book with one seat, and closes it.
fn judge_opening<N: Names>(
    alloc: Global,
    strategy: &Strategy,
    blanks: Blanks,
    first: &FirstRevision,
) -> Result<(), ResumeFault>
    requires blanks { AreAllFor N.Names blanks }
    requires seats { N.seats ≡ 1 }
{
    let opening = RolloutOpening {
        strategy,
        name: first.name.get(),
        ports: first.ports.get(),
        seats: 1,
        limits: Limits::usual(),
    };
    let (book, seats) = Book::<N>::open(alloc, SeatLimit::Many, &opening, blanks)?;
    let _history = book.close(seats);
    Ok(())
}

/// Begins the new journal beside the old one, writes its report, and puts it in the place of the old one.
fn put_in_place<R: Files + AllocGlobal, S: Alter + Drop, O: OpensJournal<S> + Copy>(
    rt: &R,
    new: &NewJournal<O>,
    begin: Begin,
    report: &mut Vec<u8>,
) -> Result<(), RestartFault> {
    let alloc = rt.alloc();
    new.files.remove_fresh(rt)?;
    let Begin { first, numbers } = begin;
    let begun = begin_in_file::<S, O>(alloc, new.opener, new.strategy, first, numbers)?;
    let blanks = Blanks::new();
    report_end::<Brand, S, O, Vec<u8>>(alloc, new.strategy, blanks, &begun, report)??;
    new.files.replace(rt)?;
    Ok(())
}
