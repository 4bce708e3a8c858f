//! The entry that the words of a line may mean.
ghost use Rattle.std.specs.Prelude.{◌≡◌, ◌∷◌, true, map, IfOk};
ghost use Rattle.std.specs.List.{list_all};
ghost use Rattle.std.specs.Str.Parse.{digits_value};
ghost use Rattle.bg_journal.specs.Words.{is_number, words_ahead, words_of};
ghost use Rattle.bg_journal.specs.Readings.{alone_in, analysis_in, available_in, deploy_in, only_number as only_number_in, outcome_entry_in, outcome_in, plain_in, promote_in, reading, result_in, verdict_in};

use crate::words::{Words, long_number, number, only, pair, short_number};
use bg_history::{Analysis, AnalysisResult, Entry, Outcome};
use bg_revisions::{Name, Ports};
use std::alloc::{AllocError, Global};

/// The entry that the words of a line mean, if they mean one.
pub fn entry_of(alloc: Global, line: &str) -> Result<Option<Entry>, AllocError>
    ensures { IfOk result (λ found. found ≡ reading (words_of line.now)) }
{
    let mut words = Words::new(line);
    match words.next() {
        None => Ok(None),
        Some("deploy") => deploy(alloc, words),
        Some(first) => Ok(plain(first, words)),
    }
}

fn deploy(alloc: Global, mut words: Words) -> Result<Option<Entry>, AllocError>
    ensures { IfOk result (λ found. found ≡ deploy_in (words_ahead words.entry)) }
{
    let Some(word) = words.next() else {
        return Ok(None);
    };
    let Some(name) = words.next() else {
        return Ok(None);
    };
    let Some(revision) = long_number(word) else {
        return Ok(None);
    };
    if !are_ports(words) {
        return Ok(None);
    }
    let name = Name::new(alloc, name)?;
    let ports = read_ports(alloc, words)?;
    Ok(Some(Entry::Deploy {
        revision,
        name,
        ports,
    }))
}

fn are_ports(mut words: Words) -> bool
    ensures { result ≡ list_all (is_number 16) (words_ahead words.entry) }
{
    words.all(|word| short_number(word).is_some())
}

fn read_ports(alloc: Global, words: Words) -> Result<Ports, AllocError>
    requires { list_all (is_number 16) (words_ahead words) ≡ true }
    ensures { IfOk result (λ ports. ports ≡ map (digits_value 10) (words_ahead words.entry)) }
{
    let mut numbers = Vec::new(alloc);
    for word in words {
        if let Some(port) = short_number(word) {
            numbers.push(port)?;
        }
    }
    Ports::from_vec(alloc, numbers)
}

/// The entry of a line that is no deploy.
fn plain(first: &str, words: Words) -> Option<Entry>
    ensures { result ≡ plain_in first.now (words_ahead words.entry) }
{
    match first {
        "tick" => Some(Entry::Tick(only_number(words)?)),
        "available" => available(words),
        "verdict" => verdict(words),
        "promote" => promote(words),
        "abort" => alone(Entry::Abort, words),
        "retry" => alone(Entry::Retry, words),
        _ => outcome_entry(first, words),
    }
}

fn only_number(words: Words) -> Option<u64>
    ensures { result ≡ only_number_in (words_ahead words.entry) }
{
    long_number(only(words)?)
}

fn available(words: Words) -> Option<Entry>
    ensures { result ≡ available_in (words_ahead words.entry) }
{
    let (revision, size) = pair(words)?;
    Some(Entry::Available {
        revision: long_number(revision)?,
        size: number(size)?,
    })
}

fn verdict(words: Words) -> Option<Entry>
    ensures { result ≡ verdict_in (words_ahead words.entry) }
{
    let (analysis, result) = pair(words)?;
    Some(Entry::Verdict {
        analysis: analysis_named(analysis)?,
        result: result_named(result)?,
    })
}

fn analysis_named(word: &str) -> Option<Analysis>
    ensures { result ≡ analysis_in word.now }
{
    match word {
        "pre" => Some(Analysis::Pre),
        "post" => Some(Analysis::Post),
        _ => None,
    }
}

fn result_named(word: &str) -> Option<AnalysisResult>
    ensures { result ≡ result_in word.now }
{
    match word {
        "successful" => Some(AnalysisResult::Successful),
        "failed" => Some(AnalysisResult::Failed),
        "error" => Some(AnalysisResult::Error),
        _ => None,
    }
}

fn promote(mut words: Words) -> Option<Entry>
    ensures { result ≡ promote_in (words_ahead words.entry) }
{
    match (words.next(), words.next()) {
        (None, _) => Some(Entry::Promote),
        (Some("full"), None) => Some(Entry::PromoteFull),
        _ => None,
    }
}

/// The entry, if no word follows.
fn alone(entry: Entry, mut words: Words) -> Option<Entry>
    ensures { result ≡ alone_in entry (words_ahead words.entry) }
{
    match words.next() {
        None => Some(entry),
        Some(_) => None,
    }
}

fn outcome_entry(word: &str, words: Words) -> Option<Entry>
    ensures { result ≡ outcome_entry_in word.now (words_ahead words.entry) }
{
    let revision = only_number(words)?;
    Some(Entry::Outcome(outcome_named(word, revision)?))
}

fn outcome_named(word: &str, revision: u64) -> Option<Outcome>
    ensures { result ≡ outcome_in word.now revision }
{
    match word {
        "ready" => Some(Outcome::Ready(revision)),
        "resumed" => Some(Outcome::Resumed(revision)),
        "switched" => Some(Outcome::Switched(revision)),
        "promoted" => Some(Outcome::Promoted(revision)),
        "scaled_down" => Some(Outcome::ScaledDown(revision)),
        "removed" => Some(Outcome::Removed(revision)),
        _ => None,
    }
}
