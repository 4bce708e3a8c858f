//! `journal`: judges a journal that no process has open.
ghost use Rattle.std.specs.Prelude.{◌≡◌, IfOk, OnOk};
ghost use Rattle.bg_ledger.specs.Blanks.{AreAllFor};
ghost use Rattle.bg_switch.specs.Resumed.{ReportsEnd};

use crate::journal::{JournalRefusal, resumed_book, write_refusal};
use crate::journal_files::has_bytes;
use crate::serve::written;
use bg_book::ResumeFault;
use bg_ledger::{Blanks, Names};
use bg_order_journal::{FileOpener, OpensJournal, Resumption, open_journal, recorded_strategy};
use bg_report::report;
use bg_script::RunEnd;
use bg_strategy::Strategy;
use sqlite::{Alter, FileFrom, FileStore, Unknown};
use std::alloc::Global;
use std::io;
use std::io::Write;
use std::marker::Brand;

/// Judges the journal in the file at a path, and writes the report of the state that it ends with. Returns the exit status: 1 if
/// the journal has a fault, or is not there or not begun, which it tells on `errors`. The only error is `WriteFailed`.
///
/// The strategy is the one that the journal names. A start of `serve` with this strategy resumes the book in the reported state.
/// The orders are as they were; the database may gain what an earlier process has left in its log.
pub fn judge_journal<W: Write, E: Write>(
    rt: &HostRuntime,
    path: &str,
    output: &mut W,
    errors: &mut E,
) -> Result<u8, RunEnd> {
    if !has_bytes(rt, path) {
        let _ = writeln!(
            errors,
            "bg_switch: the journal {path} is not there, or is empty"
        );
        written(writeln!(output, "fault Journal"))?;
        return Ok(1);
    }
    let opener = FileOpener { rt, path };
    match judged::<FileStore<FileFrom<Unknown>>, FileOpener, W>(rt.alloc(), opener, output) {
        Ok(reported) => {
            written(reported)?;
            Ok(0)
        }
        Err(refusal) => write_refusal(path, &refusal, output, errors),
    }
}

/// Judges a journal. Gives whether the report was written, or why no book can be resumed from the journal.
fn judged<S: Alter + Drop, O: OpensJournal<S>, W: Write>(
    alloc: Global,
    opener: O,
    output: &mut W,
) -> Result<io::Result<()>, JournalRefusal> {
    let Some(strategy) = recorded_strategy::<S, O>(alloc, &opener)? else {
        return Err(JournalRefusal::NotBegun);
    };
    match open_journal::<S, O>(alloc, opener, &strategy)? {
        Some(resumption) => {
            let blanks = Blanks::new();
            Ok(report_end::<Brand, S, O, W>(alloc, &strategy, blanks, &resumption, output)?)
        }
        None => Err(JournalRefusal::NotBegun),
    }
}

/// Resumes a book with one seat from a journal, and writes its report.
pub fn report_end<N: Names, S: Alter, O: OpensJournal<S>, W: Write>(
    alloc: Global,
    strategy: &Strategy,
    blanks: Blanks,
    resumption: &Resumption<S, O>,
    output: &mut W,
) -> Result<io::Result<()>, ResumeFault>
    requires blanks { AreAllFor N.Names blanks }
    requires seats { N.seats ≡ 1 }
    ensures { IfOk result (λ reported. OnOk reported (ReportsEnd strategy.now resumption.now.first
        resumption.now.entries.items (W.contents output.old) (W.contents output.new))) }
{
    let (book, seats) = resumed_book::<N, S, O>(alloc, strategy, 1, blanks, resumption)?;
    let reported = report(&book, output);
    let _history = book.close(seats);
    Ok(reported)
}
