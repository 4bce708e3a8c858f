//! Histories from texts: an entry a line.
//!
//! The lines are those of operators, with the further parts of an entry: `deploy REVISION NAME PORT..`,
//! `enter SEAT SERVICE NUMBER REVISION PORT`, `leave SEAT NUMBER REVISION`,
//! and for each outcome its word and its revision.
use bg_history::{Analysis, AnalysisResult, Entry, History, Outcome};
use bg_revisions::{Name, Ports, Service};
use std::alloc::Global;
use std::str::SplitWhitespace;
use std::test::Fail;

/// The lines of a text.
pub(crate) fn lines_of(alloc: Global, text: &str) -> Result<Vec<&str>, Fail> {
    let mut lines = Vec::new(alloc);
    for line in text.lines() {
        lines.push(line)?;
    }
    Ok(lines)
}

/// A history for this many seats, whose revision 1 is v1 with these ports.
pub(crate) fn history_of(
    alloc: Global,
    seats: u32,
    ports: &[u16],
    lines: &[&str],
) -> Result<History, Fail> {
    let mut history = History::new(alloc, seats, "v1", ports)?;
    for line in lines {
        let entry = entry(alloc, line)?;
        history.reserve(1)?;
        history.push_reserved(entry);
    }
    Ok(history)
}

/// The entry of a line.
pub(crate) fn entry(alloc: Global, line: &str) -> Result<Entry, Fail> {
    let mut words = line.split_whitespace();
    match word(&mut words)? {
        "tick" => Ok(Entry::Tick(number(&mut words)?)),
        "deploy" => Ok(Entry::Deploy {
            revision: number(&mut words)?,
            name: Name::new(alloc, word(&mut words)?)?,
            ports: ports(alloc, words)?,
        }),
        "available" => Ok(Entry::Available {
            revision: number(&mut words)?,
            size: short_number(&mut words)?,
        }),
        "verdict" => Ok(Entry::Verdict {
            analysis: analysis(word(&mut words)?)?,
            result: result(word(&mut words)?)?,
        }),
        "promote" => Ok(Entry::Promote),
        "promote_full" => Ok(Entry::PromoteFull),
        "abort" => Ok(Entry::Abort),
        "retry" => Ok(Entry::Retry),
        "enter" => enter(&mut words),
        "leave" => Ok(Entry::Leave {
            seat: short_number(&mut words)?,
            number: number(&mut words)?,
            revision: number(&mut words)?,
        }),
        kind => Ok(Entry::Outcome(outcome(kind, number(&mut words)?)?)),
    }
}

fn enter(words: &mut SplitWhitespace) -> Result<Entry, Fail> {
    Ok(Entry::Enter {
        seat: short_number(words)?,
        service: service(word(words)?)?,
        number: number(words)?,
        revision: number(words)?,
        port: port(word(words)?)?,
    })
}

fn outcome(kind: &str, revision: u64) -> Result<Outcome, Fail> {
    match kind {
        "ready" => Ok(Outcome::Ready(revision)),
        "resumed" => Ok(Outcome::Resumed(revision)),
        "switched" => Ok(Outcome::Switched(revision)),
        "promoted" => Ok(Outcome::Promoted(revision)),
        "scaled_down" => Ok(Outcome::ScaledDown(revision)),
        "removed" => Ok(Outcome::Removed(revision)),
        _ => Err(Fail::new("no entry has this word")),
    }
}

fn analysis(word: &str) -> Result<Analysis, Fail> {
    match word {
        "pre" => Ok(Analysis::Pre),
        "post" => Ok(Analysis::Post),
        _ => Err(Fail::new("no analysis has this word")),
    }
}

fn result(word: &str) -> Result<AnalysisResult, Fail> {
    match word {
        "successful" => Ok(AnalysisResult::Successful),
        "failed" => Ok(AnalysisResult::Failed),
        "error" => Ok(AnalysisResult::Error),
        _ => Err(Fail::new("no result has this word")),
    }
}

fn service(word: &str) -> Result<Service, Fail> {
    match word {
        "active" => Ok(Service::Active),
        "preview" => Ok(Service::Preview),
        _ => Err(Fail::new("no service has this word")),
    }
}

fn ports(alloc: Global, words: SplitWhitespace) -> Result<Ports, Fail> {
    let mut ports = Vec::new(alloc);
    for word in words {
        ports.push(port(word)?)?;
    }
    Ok(Ports::new(alloc, &ports)?)
}

fn port(word: &str) -> Result<u16, Fail> {
    Ok(word.parse::<u16>()?)
}

fn number(words: &mut SplitWhitespace) -> Result<u64, Fail> {
    Ok(word(words)?.parse::<u64>()?)
}

fn short_number(words: &mut SplitWhitespace) -> Result<u32, Fail> {
    Ok(word(words)?.parse::<u32>()?)
}

fn word<'a>(words: &mut SplitWhitespace<'a>) -> Result<&'a str, Fail> {
    match words.next() {
        Some(word) => Ok(word),
        None => Err(Fail::new("a word is missing")),
    }
}
