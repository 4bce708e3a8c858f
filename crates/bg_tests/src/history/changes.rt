//! The histories of worked rows, each with one entry changed. The audit accepts the good ones and rejects the bad ones.
use crate::desk::rows::{play_book, write_entries};
use crate::history::changed_histories::CHANGED;
use crate::history::texts::history_of;
use bg_audit::audit;
use bg_book::Limits;
use bg_history::History;
use bg_strategy::Strategy;
use bg_strategy_text::read;
use std::alloc::Global;
use std::test::Fail;

/// The lines of a block that begin with a word, without this word.
fn lines_with<'a>(alloc: Global, block: &'a str, word: &str) -> Result<Vec<&'a str>, Fail> {
    let mut lines = Vec::new(alloc);
    for line in block.lines() {
        let (first, rest) = first_word(line);
        if first == word {
            lines.push(rest)?;
        }
    }
    Ok(lines)
}

/// The first word, and the text after it.
fn first_word(text: &str) -> (&str, &str) {
    match text.split_once(' ') {
        Some(parts) => parts,
        None => (text, ""),
    }
}

/// The strategy of a block.
fn strategy_of(alloc: Global, block: &str) -> Result<Strategy, Fail> {
    match lines_with(alloc, block, "strategy")?.first() {
        Some(document) => Ok(read(alloc, document.as_bytes())?),
        None => Err(Fail::new("a block has no strategy")),
    }
}

/// The history with these entries.
fn history_with(alloc: Global, entries: &[&str]) -> Result<History, Fail> {
    history_of(alloc, 4, &[9001, 9002], entries)
}

/// Makes a change: `drop PLACE`, `double PLACE`, `move PLACE PLACE` or `change PLACE ENTRY`.
fn make<'a>(lines: &mut Vec<&'a str>, change: &'a str) -> Result<(), Fail> {
    let (kind, rest) = first_word(change);
    let (place, rest) = first_word(rest);
    let place = place.parse::<usize>()?;
    if place >= lines.len() {
        return Err(Fail::new("no entry has this place"));
    }
    match kind {
        "drop" => {
            let _line = lines.remove(place);
        }
        "double" => lines.insert(place, lines[place])?,
        "move" => {
            let line = lines.remove(place);
            let to = rest.parse::<usize>()?;
            if to > lines.len() {
                return Err(Fail::new("no entry has this place"));
            }
            lines.insert(to, line)?;
        }
        "change" => lines[place] = rest,
        _ => return Err(Fail::new("no change has this word")),
    }
    Ok(())
}

/// Whether the audit accepts the history of a block with one entry changed.
fn is_accepted(
    alloc: Global,
    block: &str,
    strategy: &Strategy,
    change: &str,
) -> Result<bool, Fail> {
    let mut entries = lines_with(alloc, block, "entry")?;
    make(&mut entries, change)?;
    Ok(audit(alloc, &history_with(alloc, &entries)?, strategy)?)
}

/// Expects that a book that plays the script of a block records its entries.
fn expect_gathered(alloc: Global, block: &str, strategy: &Strategy) -> Result<(), Fail> {
    let script = lines_with(alloc, block, "play")?;
    let played = play_book(alloc, strategy, Limits::usual(), &script)?;
    let history = history_with(alloc, &lines_with(alloc, block, "entry")?)?;
    let mut entries = Vec::new(alloc);
    write_entries(&history, &mut entries)?;
    if entries.as_slice() == played.entries.as_slice() {
        Ok(())
    } else {
        Err(Fail::new("the script records other entries"))
    }
}

/// How many changes of a block with this word the audit judges as expected, which have to be all.
fn count_of(alloc: Global, block: &str, word: &str, is_good: bool) -> Result<u64, Fail> {
    let strategy = strategy_of(alloc, block)?;
    let mut count = 0u64;
    for change in &lines_with(alloc, block, word)? {
        if is_accepted(alloc, block, &strategy, change)? != is_good {
            return Err(Fail::new(*change));
        }
        count = count.saturating_add(1);
    }
    Ok(count)
}

/// Each block is a history of a worked row.
#[test]
fn changes_what_rows_gather(rt: HostRuntime) -> Result<(), Fail> {
    for block in CHANGED.split("\n\n") {
        let strategy = strategy_of(rt.alloc(), block)?;
        expect_gathered(rt.alloc(), block, &strategy)?;
    }
    Ok(())
}

#[test]
fn tells_changed_histories_apart(rt: HostRuntime) -> Result<(), Fail> {
    let (mut good, mut bad) = (0u64, 0u64);
    for block in CHANGED.split("\n\n") {
        good = good.saturating_add(count_of(rt.alloc(), block, "good", true)?);
        bad = bad.saturating_add(count_of(rt.alloc(), block, "bad", false)?);
    }
    assert_eq!(rt; (good, bad), (80, 120));
    Ok(())
}
