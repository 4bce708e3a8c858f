//! The report: the state of a rollout, and each of its revisions.
ghost use Rattle.std.specs.Prelude.{◌≡◌, ◌+◌, Some, OnOk};
ghost use Rattle.std.specs.Io.KnownBytes.{Appends};
ghost use Rattle.bg_report.specs.Reports.{cut_text, deadline_text, draining_text, report_text, revision_lines as revision_lines_of, selectors_text, sizes_text, state_text, traffic_text};

use bg_book::Book;
use bg_ledger::Names;
use bg_revisions::{Revision, Selectors};
use std::io::Write;
use std::{fmt, io};

/// Writes the report: the moment, the phase, the selected revisions, a line for each revision in
/// order of number, and `end`. If a write fails, a part of it may have been written.
pub fn report<N: Names, W: Write>(book: &Book<N>, writer: &mut W) -> io::Result<()>
    ensures { OnOk result (Appends (W.contents writer.old) (W.contents writer.new)
        (report_text book.now)) }
{
    write!(writer, "{}", StateLines(book))?;
    revision_lines(book, writer)?;
    writeln!(writer, "end")
}

/// Writes the line of each revision, in order of number.
fn revision_lines<N: Names, W: Write>(book: &Book<N>, writer: &mut W) -> io::Result<()>
    ensures { OnOk result (Appends (W.contents writer.old) (W.contents writer.new)
        (revision_lines_of book.now)) }
{
    for place in 0..book.count() {
        if let Some(revision) = book.revision(place) {
            let number = revision.number;
            let traffic = RevisionTraffic { book, number };
            write!(writer, "{}{traffic}", RevisionSizes(revision))?;
        }
    }
    Ok(())
}

/// The state of the rollout.
#[derive(Drop)]
struct StateLines<'a, N: Names>(&'a Book<N>);

impl<N: Names> fmt::Display for StateLines<'_, N> {
    ghost output = { λ lines. Some (state_text lines.0.now) };

    fn fmt<W: fmt::Write>(&self, f: &mut fmt::Formatter<W>) -> fmt::Result {
        let book = self.0;
        writeln!(f, "moment {}", book.moment())?;
        writeln!(f, "phase {}", book.phase().name())?;
        write!(f, "{}", SelectorLines(book.selectors()))
    }
}

/// The selected revisions, also that of the preview service if no preview service is set.
#[derive(Drop)]
struct SelectorLines(Selectors);

impl fmt::Display for SelectorLines {
    ghost output = { λ lines. Some (selectors_text lines.0) };

    fn fmt<W: fmt::Write>(&self, f: &mut fmt::Formatter<W>) -> fmt::Result {
        let selectors = self.0;
        writeln!(f, "active {}", selectors.active)?;
        writeln!(f, "preview {}", selectors.preview)?;
        writeln!(f, "stable {}", selectors.stable)?;
        writeln!(f, "newest {}", selectors.newest)
    }
}

/// A revision, and its sizes.
#[derive(Drop)]
struct RevisionSizes<'a>(&'a Revision);

impl fmt::Display for RevisionSizes<'_> {
    ghost output = { λ sizes. Some (sizes_text sizes.0.now) };

    fn fmt<W: fmt::Write>(&self, f: &mut fmt::Formatter<W>) -> fmt::Result {
        let revision = self.0;
        write!(f, "revision {}", revision.number)?;
        write!(f, " {}", revision.name.get())?;
        write!(f, " desired {}", revision.desired)?;
        write!(f, " available {}", revision.available)
    }
}

/// The requests of a revision, and the moment from which it may be scaled down.
#[derive(Drop)]
struct RevisionTraffic<'a, N: Names> {
    book: &'a Book<N>,
    number: u64,
}

impl<N: Names> fmt::Display for RevisionTraffic<'_, N> {
    ghost output = { λ traffic. Some (traffic_text traffic.book.now traffic.number) };

    fn fmt<W: fmt::Write>(&self, f: &mut fmt::Formatter<W>) -> fmt::Result {
        let deadline = Deadline(self.book.deadline_of(self.number));
        let draining = draining_mark(self.book.is_draining(self.number));
        let cut = cut_mark(self.book.past_limit(self.number));
        write!(f, " open {}", self.book.open_count(self.number))?;
        writeln!(f, " deadline {deadline}{draining}{cut}")
    }
}

/// The moment from which a revision may be scaled down, or `none`.
#[derive(Drop)]
struct Deadline(Option<u64>);

impl fmt::Display for Deadline {
    ghost output = { λ deadline. Some (deadline_text deadline.0) };

    fn fmt<W: fmt::Write>(&self, f: &mut fmt::Formatter<W>) -> fmt::Result {
        match self.0 {
            Some(moment) => write!(f, "{moment}"),
            None => write!(f, "none"),
        }
    }
}

/// The mark of a revision that waits only for its open requests.
fn draining_mark(is_draining: bool) -> &'static str
    ensures { result.now ≡ draining_text is_draining }
{
    if is_draining { " draining" } else { "" }
}

/// The mark of a revision whose requests are given up.
fn cut_mark(is_past_limit: bool) -> &'static str
    ensures { result.now ≡ cut_text is_past_limit }
{
    if is_past_limit { " cut" } else { "" }
}
