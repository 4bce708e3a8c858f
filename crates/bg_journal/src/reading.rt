//! Reading the lines of entries.
ghost use Rattle.std.specs.Prelude.{◌≡◌, [], true, List, IfOk, IfSome, IfErr, MatchResult, OnOk, Some};
ghost use Rattle.std.specs.List.{list_all};
ghost use Rattle.bg_history.specs.declared.entry.Entry.{Entry as SomeEntry};
ghost use Rattle.bg_journal.specs.Texts.{entries_text, is_journaled, line_of};
ghost use Rattle.bg_journal.specs.Faults.{TextFaultIs};
ghost use Rattle.bg_journal.specs.declared.text_fault.TextFault.TheVariants.{OutOfMemory};

use crate::entry_line::entry_of;
use crate::text_fault::TextFault;
use crate::writing::{has_line, write_line};
use bg_history::Entry;
use std::alloc::{AllocError, Global};

/// The entry whose line this is, given without its line break; `None` if it is that of no entry. So each line that
/// [`write_entry`](crate::write_entry) writes is read as its entry, and no other line is read as one. The only error is
/// an allocation failure.
pub fn read_entry(alloc: Global, line: &str) -> Result<Option<Entry>, AllocError>
    ensures text { IfOk result (λ found. IfSome found (λ e. line_of e ≡ line.now)) }
    ensures journaled { IfOk result (λ found. IfSome found (λ e. is_journaled e ≡ true)) }
    ensures each { IfOk result (λ found. (e : SomeEntry)
        → is_journaled e ≡ true → line_of e ≡ line.now → found ≡ Some e) }
{
    let Some(entry) = entry_of(alloc, line)? else {
        return Ok(None);
    };
    if is_line_of(alloc, line, &entry)? {
        Ok(Some(entry))
    } else {
        Ok(None)
    }
}

/// Whether the line is exactly that of the entry.
fn is_line_of(alloc: Global, line: &str, entry: &Entry) -> Result<bool, AllocError>
    ensures text { IfOk result (λ same. same ≡ true → line_of entry.now ≡ line.now) }
    ensures journaled { IfOk result (λ same. same ≡ true → is_journaled entry.now ≡ true) }
    ensures each { IfOk result (λ same.
        is_journaled entry.now ≡ true → line_of entry.now ≡ line.now → same ≡ true) }
{
    if !has_line(entry) {
        return Ok(false);
    }
    let mut written = Vec::new(alloc);
    if write_line(entry, &mut written).is_err() {
        return Err(AllocError);
    }
    Ok(written.as_slice() == line.as_bytes())
}

/// The entries whose lines these are, each with its line break, the oldest first. The error is `BadLine` of the first
/// line that is not exactly that of an entry; `OutOfMemory` if an allocation fails. So each text that
/// [`write_entries`](crate::write_entries) writes is read as its entries, and no other text is read.
pub fn read_entries(alloc: Global, text: &str) -> Result<Vec<Entry>, TextFault>
    ensures text { IfOk result (λ entries. entries_text entries.items ≡ text.now) }
    ensures journaled { IfOk result (λ entries. list_all is_journaled entries.items ≡ true) }
    ensures each { (entries : List SomeEntry) → list_all is_journaled entries ≡ true
        → entries_text entries ≡ text.now
        → MatchResult result (λ read. read.items ≡ entries) (λ fault. fault ≡ OutOfMemory) }
    ensures fault { IfErr result (TextFaultIs text.now) }
{
    let mut entries = Vec::new(alloc);
    read_onto(alloc, text, &mut entries)?;
    Ok(entries)
}

/// Reads the entries of the text into an empty vector.
fn read_onto(alloc: Global, text: &str, entries: &mut Vec<Entry>) -> Result<(), TextFault>
    requires { entries.old.items ≡ [] }
    ensures text { OnOk result (entries_text entries.new.items ≡ text.now) }
    ensures journaled { OnOk result (list_all is_journaled entries.new.items ≡ true) }
    ensures fault { IfErr result (TextFaultIs text.now) }
{
    let mut rest = text;
    while let Some((line, after)) = rest.split_once('\n') {
        match read_entry(alloc, line)? {
            Some(entry) => entries.push(entry)?,
            None => return Err(TextFault::BadLine(entries.len() + 1)),
        }
        rest = after;
    }
    if rest.is_empty() {
        Ok(())
    } else {
        Err(TextFault::BadLine(entries.len() + 1))
    }
}
