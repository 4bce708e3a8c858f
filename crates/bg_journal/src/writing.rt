//! Writing the lines of entries.
ghost use Rattle.std.specs.Prelude.{◌≡◌, true, false, OnOk};
ghost use Rattle.std.specs.List.{list_all};
ghost use Rattle.std.specs.Io.KnownBytes.{Appends};
ghost use Rattle.std.specs.IoError.{error_kind};
ghost use Rattle.std.specs.Result.{IsErrAnd};
ghost use Rattle.std.specs.declared.io.ErrorKind.TheVariants.{InvalidInput};
ghost use Rattle.bg_history.specs.declared.entry.Entry.TheVariants as some_entry;
ghost use Rattle.bg_journal.specs.Texts.{analysis_word as word_of_analysis, entries_text, entry_text, has_line as is_with_line, is_journaled, is_port, line_of, numbers_fit, outcome_line, ports_text, result_word as word_of_result};

use bg_history::{Analysis, AnalysisResult, Entry, Outcome};
use bg_revisions::{Name, Ports};
use bg_strategy::is_dns_label;
use std::io;
use std::io::{ErrorKind, Write};

/// Whether the entry has a line. An entry of a request has none, nor has a deploy whose name is not a DNS label or
/// with a port 0: its line would not be read as that entry.
pub fn has_line(entry: &Entry) -> bool
    ensures { result ≡ is_with_line entry.now }
{
    match entry {
        Entry::Deploy { name, ports, .. } => is_dns_label(name.get()) && are_ports(ports.get()),
        Entry::Enter { .. } | Entry::Leave { .. } => false,
        _ => true,
    }
}

fn are_ports(ports: &[u16]) -> bool
    ensures { result ≡ list_all is_port ports.now }
{
    ports.iter().all(|port| is_port_number(*port))
}

fn is_port_number(port: u16) -> bool
    ensures { result ≡ is_port port }
{
    port != 0
}

/// Writes the line of an entry, and a line break. The error is `InvalidInput`, and nothing is written, if the entry has
/// no line ([`has_line`]). If a write fails, a part of the line may have been written.
pub fn write_entry<W: Write>(entry: &Entry, writer: &mut W) -> io::Result<()>
    ensures text { OnOk result (Appends (W.contents writer.old) (W.contents writer.new)
        (entry_text entry.now)) }
    ensures journaled { OnOk result (is_journaled entry.now ≡ true) }
    ensures refused { is_with_line entry.now ≡ false
        → IsErrAnd result (λ e. error_kind e ≡ InvalidInput) }
    ensures unchanged { is_with_line entry.now ≡ false
        → W.contents writer.new ≡ W.contents writer.old }
{
    if !has_line(entry) {
        return Err(io::Error::from(ErrorKind::InvalidInput));
    }
    write_line(entry, writer)?;
    writeln!(writer)
}

/// Writes the lines of entries, the oldest first. The error is `InvalidInput` at the first entry that has no line. After
/// an error, lines of earlier entries may have been written.
pub fn write_entries<W: Write>(entries: &[Entry], writer: &mut W) -> io::Result<()>
    ensures text { OnOk result (Appends (W.contents writer.old) (W.contents writer.new)
        (entries_text entries.now)) }
    ensures journaled { OnOk result (list_all is_journaled entries.now ≡ true) }
{
    for place in 0..entries.len() {
        write_entry(&entries[place], writer)?;
    }
    Ok(())
}

/// Writes the line of an entry, without its line break.
pub(crate) fn write_line<W: Write>(entry: &Entry, writer: &mut W) -> io::Result<()>
    ensures text { OnOk result (Appends (W.contents writer.old) (W.contents writer.new)
        (line_of entry.now)) }
    ensures fits { OnOk result (numbers_fit entry.now ≡ true) }
{
    match entry {
        Entry::Tick(moment) => write_tick(*moment, writer),
        Entry::Deploy {
            revision,
            name,
            ports,
        } => write_deploy(*revision, name.get(), ports.get(), writer),
        Entry::Available { revision, size } => write_available(*revision, *size, writer),
        Entry::Verdict { analysis, result } => write_verdict(*analysis, *result, writer),
        Entry::Promote => write!(writer, "promote"),
        Entry::PromoteFull => write!(writer, "promote full"),
        Entry::Abort => write!(writer, "abort"),
        Entry::Retry => write!(writer, "retry"),
        Entry::Enter { .. } | Entry::Leave { .. } => Ok(()),
        Entry::Outcome(outcome) => write_outcome(*outcome, writer),
    }
}

fn write_tick<W: Write>(moment: u64, writer: &mut W) -> io::Result<()>
    ensures text { OnOk result (Appends (W.contents writer.old) (W.contents writer.new)
        (line_of (some_entry.Tick moment))) }
    ensures fits { OnOk result (numbers_fit (some_entry.Tick moment) ≡ true) }
{
    write!(writer, "tick {moment}")
}

fn write_deploy<W: Write>(
    revision: u64,
    name: &str,
    ports: &[u16],
    writer: &mut W,
) -> io::Result<()>
    ensures text { OnOk result (Appends (W.contents writer.old) (W.contents writer.new)
        (line_of (some_entry.Deploy revision name.now ports.now))) }
    ensures fits { OnOk result
        (numbers_fit (some_entry.Deploy revision name.now ports.now) ≡ true) }
{
    write!(writer, "deploy {revision} {name}")?;
    write_ports(ports, writer)
}

fn write_available<W: Write>(revision: u64, size: u32, writer: &mut W) -> io::Result<()>
    ensures text { OnOk result (Appends (W.contents writer.old) (W.contents writer.new)
        (line_of (some_entry.Available revision size))) }
    ensures fits { OnOk result (numbers_fit (some_entry.Available revision size) ≡ true) }
{
    write!(writer, "available {revision} {size}")
}

fn write_verdict<W: Write>(
    analysis: Analysis,
    verdict: AnalysisResult,
    writer: &mut W,
) -> io::Result<()>
    ensures { OnOk result (Appends (W.contents writer.old) (W.contents writer.new)
        (line_of (some_entry.Verdict analysis verdict))) }
{
    write!(
        writer,
        "verdict {} {}",
        analysis_word(analysis),
        result_word(verdict)
    )
}

fn write_outcome<W: Write>(outcome: Outcome, writer: &mut W) -> io::Result<()>
    ensures text { OnOk result (Appends (W.contents writer.old) (W.contents writer.new)
        (outcome_line outcome)) }
    ensures fits { OnOk result (numbers_fit (some_entry.Outcome outcome) ≡ true) }
{
    match outcome {
        Outcome::Ready(revision) => write!(writer, "ready {revision}"),
        Outcome::Resumed(revision) => write!(writer, "resumed {revision}"),
        Outcome::Switched(revision) => write!(writer, "switched {revision}"),
        Outcome::Promoted(revision) => write!(writer, "promoted {revision}"),
        Outcome::ScaledDown(revision) => write!(writer, "scaled_down {revision}"),
        Outcome::Removed(revision) => write!(writer, "removed {revision}"),
    }
}

/// Writes each port, after a space.
fn write_ports<W: Write>(ports: &[u16], writer: &mut W) -> io::Result<()>
    ensures { OnOk result (Appends (W.contents writer.old) (W.contents writer.new)
        (ports_text ports.now)) }
{
    for place in 0..ports.len() {
        write!(writer, " {}", ports[place])?;
    }
    Ok(())
}

fn analysis_word(analysis: Analysis) -> &'static str
    ensures { result.now ≡ word_of_analysis analysis }
{
    match analysis {
        Analysis::Pre => "pre",
        Analysis::Post => "post",
    }
}

fn result_word(verdict: AnalysisResult) -> &'static str
    ensures { result.now ≡ word_of_result verdict }
{
    match verdict {
        AnalysisResult::Successful => "successful",
        AnalysisResult::Failed => "failed",
        AnalysisResult::Error => "error",
    }
}
