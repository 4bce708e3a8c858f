//! `replay`: the answers to a script.
ghost use Rattle.std.specs.Prelude.{◌≡◌, ◌≤◌, Bool, if◌then◌else◌, IfOk, IfErr, IfSome, OnErr, OnOk};
ghost use Rattle.std.specs.Io.KnownBytes.{Appends};
ghost use Rattle.bg_ledger.specs.Blanks.{AreAllFor};
ghost use Rattle.bg_script.specs.declared.answer.Answer.TheVariants.{Opened, OpenRefused};
ghost use Rattle.bg_script.specs.AnswerTexts.{answer_text};
ghost use Rattle.bg_script.specs.LineSteps.{Closed, Running, Said, ScriptOpens, Stage};
ghost use Rattle.bg_script.specs.Scripts.{Ran, RanOpened, Refuses, Replays};

use crate::answer::{Answer, write_answer};
use crate::answering::{FirstRevision, LinesEnd, answer_lines};
use crate::finding::{Finding, finding_in, write_finding};
use crate::run_end::RunEnd;
use crate::stages::{ScriptSettings, WithoutBook};
use bg_book::{Limits, OpenBook, OpenFault, RolloutOpening, SeatLimit};
use bg_ledger::{Blanks, Names};
use bg_operator::{MOST_TURNS, OperatorLines, part_before_script};
use bg_strategy::Strategy;
use std::alloc::Global;
use std::io::{BufRead, BufReader, Read, Write};
use std::marker::Brand;

/// Answers the script after the line `---`, by a book of the strategy before that line. The number of
/// seats is 1 to 8; with any other number, each `open` is refused. Returns the exit status: 1 if a
/// fault was written, otherwise 0.
///
/// A fault of the strategy is written as `check` writes it, and nothing more is read; hints about its text go to
/// `errors`. The answer to a line that is not well formed is a fault, and the script goes on. The run ends at `quit`
/// and at the end of the input. If a read, a write or an allocation fails, the output up to then must not
/// be used.
pub fn replay<R: Read, W: Write, E: Write>(
    alloc: Global,
    seats: u8,
    reader: &mut R,
    writer: &mut W,
    errors: &mut E,
) -> Result<u8, RunEnd>
    ensures { IfOk result (λ status. IfSome (R.remaining reader.old)
        (Replays seats (W.contents writer.old) (W.contents writer.new) status)) }
{
    let Ok(mut input) = BufReader::new(alloc, reader) else {
        return Err(RunEnd::OutOfMemory);
    };
    let part = part_before_script(alloc, &mut input)?;
    let finding = finding_in(alloc, &part, errors)?;
    let Finding::Means(strategy) = &finding else {
        return refuse(&finding, writer);
    };
    run_script(alloc, strategy, seats, &mut input, writer)
}

/// Writes the fault of the strategy. Returns the exit status.
fn refuse<W: Write>(finding: &Finding, writer: &mut W) -> Result<u8, RunEnd>
    ensures { IfOk result (Refuses finding.now (W.contents writer.old) (W.contents writer.new)) }
{
    write_finding(finding, writer)?;
    Ok(finding.status())
}

/// Answers the script by books of this strategy. Returns the exit status.
fn run_script<B: BufRead, W: Write>(
    alloc: Global,
    strategy: &Strategy,
    seats: u8,
    reader: &mut B,
    writer: &mut W,
) -> Result<u8, RunEnd>
    ensures { IfOk result (λ status. (faulted : Bool)
        × IfSome (B.remaining reader.old) (Ran (Closed strategy.now seats)
        (W.contents writer.old) (W.contents writer.new) faulted)
        × (status ≡ (if faulted then 1 else 0))) }
{
    let settings = ScriptSettings {
        alloc,
        strategy,
        seats: u32::from(seats),
    };
    let mut lines = OperatorLines::new(alloc);
    let faulted = run(&settings, &mut lines, reader, writer)?;
    Ok(u8::from(faulted))
}

/// Answers each line up to the end or `quit`. Returns whether a fault was among the answers.
fn run<B: BufRead, W: Write>(
    settings: &ScriptSettings,
    lines: &mut OperatorLines,
    reader: &mut B,
    writer: &mut W,
) -> Result<bool, RunEnd>
    ensures { IfOk result (λ faulted. IfSome (B.remaining reader.old)
        (Ran (Closed settings.now.strategy.now settings.now.seats) (W.contents writer.old)
        (W.contents writer.new) faulted)) }
{
    let mut faulted = false;
    for _ in 0..MOST_TURNS {
        let mut stage = WithoutBook::Script(&*settings);
        let answered = answer_lines(&mut stage, lines, reader, writer)?;
        faulted |= answered.faulted;
        let first = match answered.end {
            LinesEnd::Open(first) => first,
            LinesEnd::Quit | LinesEnd::End => return Ok(faulted),
            LinesEnd::SpeaksHttp => unreachable!(),
        };
        let opening = Opening {
            settings: &*settings,
            first: &first,
        };
        match run_open::<Brand, B, W>(&opening, Blanks::new(), lines, reader, writer) {
            Ok(end) => {
                let later = end?;
                return Ok(faulted | later);
            }
            Err(fault) => write_answer(&Answer::OpenRefused(fault), writer)?,
        }
    }
    Err(RunEnd::ReadFailed)
}

/// What an `open` of a script opens.
#[derive(Drop)]
struct Opening<'a> {
    settings: &'a ScriptSettings<'a>,
    first: &'a FirstRevision,
}

/// Opens a book, answers all later lines by it, and closes it at their end in any case. If the book is not opened,
/// neither reads nor writes.
fn run_open<N: Names, B: BufRead, W: Write>(
    opening: &Opening,
    blanks: Blanks,
    lines: &mut OperatorLines,
    reader: &mut B,
    writer: &mut W,
) -> Result<Result<bool, RunEnd>, OpenFault>
    requires blanks { AreAllFor N.Names blanks }
    requires seats { 1 ≤ opening.now.settings.now.seats → opening.now.settings.now.seats ≤ 8
        → N.seats ≡ opening.now.settings.now.seats }
    ensures ok { IfOk result (λ end. IfOk end (λ faulted. (start : Stage)
        × ScriptOpens opening.now.settings.now.strategy.now opening.now.settings.now.seats
        opening.now.first.now.name opening.now.first.now.ports (Said Opened) start
        × IfSome (B.remaining reader.old)
        (RanOpened start (W.contents writer.old) (W.contents writer.new) faulted))) }
    ensures err { IfErr result (λ fault. ScriptOpens opening.now.settings.now.strategy.now
        opening.now.settings.now.seats opening.now.first.now.name opening.now.first.now.ports
        (Said (OpenRefused fault))
        (Closed opening.now.settings.now.strategy.now opening.now.settings.now.seats)) }
    ensures unchanged { OnErr result ((reader.new ≡ reader.old) × (writer.new ≡ writer.old)) }
{
    let mut opened = open::<N>(opening, blanks)?;
    let end = answer_opened(&mut opened, lines, reader, writer);
    let _history = opened.close();
    Ok(end)
}

/// Opens the book with the usual limits.
fn open<N: Names>(opening: &Opening, blanks: Blanks) -> Result<OpenBook<N>, OpenFault>
    requires blanks { AreAllFor N.Names blanks }
    requires seats { 1 ≤ opening.now.settings.now.seats → opening.now.settings.now.seats ≤ 8
        → N.seats ≡ opening.now.settings.now.seats }
    ensures ok { IfOk result (λ made. ScriptOpens opening.now.settings.now.strategy.now
        opening.now.settings.now.seats opening.now.first.now.name opening.now.first.now.ports
        (Said Opened) (Running made.book made.seats)) }
    ensures err { IfErr result (λ fault. ScriptOpens opening.now.settings.now.strategy.now
        opening.now.settings.now.seats opening.now.first.now.name opening.now.first.now.ports
        (Said (OpenRefused fault))
        (Closed opening.now.settings.now.strategy.now opening.now.settings.now.seats)) }
{
    let Opening { settings, first } = opening;
    let rollout_opening = RolloutOpening {
        strategy: settings.strategy,
        name: first.name.get(),
        ports: first.ports.get(),
        seats: settings.seats,
        limits: Limits::usual(),
    };
    OpenBook::open(settings.alloc, SeatLimit::Few, &rollout_opening, blanks)
}

/// Writes that the book is open, and answers each later line by it. Returns whether a fault was among the answers.
fn answer_opened<N: Names, B: BufRead, W: Write>(
    opened: &mut OpenBook<N>,
    lines: &mut OperatorLines,
    reader: &mut B,
    writer: &mut W,
) -> Result<bool, RunEnd>
    ensures { IfOk result (λ faulted. IfSome (B.remaining reader.old)
        (RanOpened (Running opened.old.book opened.old.seats) (W.contents writer.old)
        (W.contents writer.new) faulted)) }
{
    write_answer(&Answer::Opened, writer)?;
    let answered = answer_lines(opened, lines, reader, writer)?;
    match answered.end {
        LinesEnd::Quit | LinesEnd::End => Ok(answered.faulted),
        LinesEnd::Open(_) | LinesEnd::SpeaksHttp => unreachable!(),
    }
}
