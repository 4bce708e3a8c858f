//! The marks of the revisions, which give their deadlines.
ghost use Rattle.std.specs.Prelude.{◌≡◌, ◌∷◌, ◌==◌, not, List, map, filter, find, OnOk};
ghost use Rattle.std.specs.List.{list_any};
ghost use Rattle.std.specs.Option.{option_map, option_copied};
ghost use Rattle.bg_strategy.specs.declared.strategy.Strategy.{Strategy};
ghost use Rattle.bg_history.specs.declared.entry.Entry.{Entry};
ghost use Rattle.bg_history.specs.Kept.{Opening};
ghost use Rattle.bg_history.specs.AttemptBounds.{newest_of};
ghost use Rattle.bg_history.specs.Sizes.{begins, is_scaled};
ghost use Rattle.bg_history.specs.Marks.{kind_of, halts, supersedes, scales_down};
ghost use Rattle.bg_history_laws.specs.Reachable.{Reachable};
ghost use Rattle.bg_audit.specs.AuditedState.{IsAuditedState};
ghost use Rattle.bg_audit.specs.Marked.{IsAround, kind_told, remarked, mark_in, with_revision, prepared, HasMarks};

use crate::audited_state::AuditedState;
use bg_history::{AnalysisResult, Entry, Outcome};
use std::alloc::AllocError;

/// What an entry did to a revision.
#[derive(Clone, Copy, PartialEq, Eq, Drop)]
pub enum MarkKind {
    /// It left the active service.
    Left,
    /// A deploy took its place while it was neither active nor stable.
    Superseded,
    /// Its attempt was halted, and it will be scaled down after the delay.
    Aborted,
    /// Its deadline was cleared.
    Cleared,
}

/// The mark that an entry made for a revision.
#[derive(Clone, Copy, Drop)]
pub struct Mark {
    pub kind: MarkKind,
    /// The moment after the entry.
    pub moment: u64,
    /// The number of entries before it.
    pub position: u64,
}

/// A revision's newest mark, if there is one.
#[derive(Drop)]
pub struct NewestMark {
    pub revision: u64,
    pub mark: Option<Mark>,
}

/// The facts before and after an entry that decide which marks it makes.
#[derive(Clone, Copy, Drop)]
pub struct Around {
    pub before: AuditedState,
    pub after: AuditedState,
    /// Whether the newest revision was scaled before the entry.
    pub newest_is_scaled: bool,
    /// Whether the strategy scales aborted revisions down after a delay.
    pub has_abort_delay: bool,
    /// The number of entries before it.
    pub position: u64,
}

/// The newest mark of the revision.
pub fn mark_of(marks: &[NewestMark], revision: u64) -> Option<Mark>
    ensures { result ≡ mark_in revision marks.now }
{
    match marked_of(marks, revision) {
        Some(marked) => marked.mark,
        None => None,
    }
}

/// The list's element for the revision, if there is one.
fn marked_of(marks: &[NewestMark], revision: u64) -> Option<&NewestMark>
    ensures { option_copied result ≡ find (λ m. m.revision == revision) marks.now }
{
    marks.iter().find(|marked| marked.revision == revision)
}

/// Whether the list has an element for the revision.
fn has_mark(marks: &[NewestMark], revision: u64) -> bool
    ensures { result ≡ list_any (λ m. m.revision == revision) marks.now }
{
    marks.iter().any(|marked| marked.revision == revision)
}

/// Updates the marks with an allowed entry. The only error is an allocation failure.
pub fn take(marks: &mut Vec<NewestMark>, entry: &Entry, around: &Around) -> Result<(), AllocError>
    ensures { (s : Strategy) (o : Opening) (past : List Entry)
        → IsAround s entry.now past around.now → Reachable s o past
        → HasMarks s past marks.old.items
        → OnOk result (HasMarks s (entry.now ∷ past) marks.new.items) }
{
    prepare(marks, entry)?;
    mark_all(marks, entry, around);
    Ok(())
}

/// Adds the revision that the entry deploys, and drops the one that it removes.
fn prepare(marks: &mut Vec<NewestMark>, entry: &Entry) -> Result<(), AllocError>
    ensures { OnOk result (marks.new.items ≡ prepared entry.now marks.old.items) }
{
    match entry {
        Entry::Deploy { revision, .. } => add(marks, *revision)?,
        Entry::Outcome(Outcome::Removed(revision)) => drop_mark(marks, *revision),
        _ => {}
    }
    Ok(())
}

/// Adds a revision without a mark, unless the list has it already. The only error is an allocation failure.
pub fn add(marks: &mut Vec<NewestMark>, revision: u64) -> Result<(), AllocError>
    ensures { OnOk result (marks.new.items ≡ with_revision revision marks.old.items) }
{
    if !has_mark(marks, revision) {
        marks.push(NewestMark {
            revision,
            mark: None,
        })?;
    }
    Ok(())
}

/// Drops the revision from the list.
fn drop_mark(marks: &mut Vec<NewestMark>, revision: u64)
    ensures { marks.new.items ≡ filter (λ m. not (m.revision == revision)) marks.old.items }
{
    marks.retain(|marked| marked.revision != revision);
}

/// Sets the mark of each revision for which the entry makes one.
fn mark_all(marks: &mut Vec<NewestMark>, entry: &Entry, around: &Around)
    ensures { (s : Strategy) (past : List Entry) → IsAround s entry.now past around.now
        → marks.new.items ≡ map (remarked s entry.now past) marks.old.items }
{
    for marked in marks.iter_mut() {
        mark_one(marked, entry, around);
    }
}

fn mark_one(marked: &mut NewestMark, entry: &Entry, around: &Around)
    ensures { (s : Strategy) (past : List Entry) → IsAround s entry.now past around.now
        → marked.new ≡ remarked s entry.now past marked.old }
{
    if let Some(kind) = kind_of(marked.revision, entry, around) {
        marked.mark = Some(Mark {
            kind,
            moment: around.after.moment,
            position: around.position,
        });
    }
}

/// The kind of mark that the entry makes for the revision, if it makes one.
fn kind_of(revision: u64, entry: &Entry, around: &Around) -> Option<MarkKind>
    ensures { (s : Strategy) (past : List Entry) → IsAround s entry.now past around.now
        → result ≡ option_map kind_told (kind_of s revision entry.now past) }
{
    let was_active = around.before.active == revision;
    let is_active = around.after.active == revision;
    let halted = halts(revision, entry, &around.before);
    if was_active && !is_active && !halted {
        Some(MarkKind::Left)
    } else if supersedes(revision, entry, &around.before, around.newest_is_scaled) {
        Some(MarkKind::Superseded)
    } else if halted && around.has_abort_delay {
        Some(MarkKind::Aborted)
    } else if begins(revision, entry, &around.before)
        || (!was_active && is_active)
        || scales_down(revision, entry)
        || halted
    {
        Some(MarkKind::Cleared)
    } else {
        None
    }
}

/// Whether the entry halts the attempt of the revision.
fn halts(revision: u64, entry: &Entry, before: &AuditedState) -> bool
    ensures { (s : Strategy) (past : List Entry) → IsAuditedState s past before.now
        → result ≡ halts revision entry.now past }
{
    let is_halt = match entry {
        Entry::Abort => true,
        Entry::Verdict {
            analysis: _,
            result,
        } => match result {
            AnalysisResult::Successful => false,
            AnalysisResult::Failed | AnalysisResult::Error => true,
        },
        _ => false,
    };
    is_halt && before.newest == revision
}

/// Whether the entry deploys another revision in the place of this one, which is scaled and neither active nor
/// stable.
fn supersedes(revision: u64, entry: &Entry, before: &AuditedState, newest_is_scaled: bool) -> bool
    ensures { (s : Strategy) (past : List Entry) → IsAuditedState s past before.now
        → newest_is_scaled ≡ is_scaled s (newest_of past) past
        → result ≡ supersedes s revision entry.now past }
{
    match entry {
        Entry::Deploy { .. } => {
            before.newest == revision
                && before.active != revision
                && before.stable != revision
                && newest_is_scaled
        }
        _ => false,
    }
}

/// Whether the entry begins an attempt of the revision.
fn begins(revision: u64, entry: &Entry, before: &AuditedState) -> bool
    ensures { (s : Strategy) (past : List Entry) → IsAuditedState s past before.now
        → result ≡ begins revision entry.now past }
{
    match entry {
        Entry::Retry => revision == before.newest,
        Entry::Deploy {
            revision: deployed,
            ..
        } => *deployed == revision && revision != before.stable,
        _ => false,
    }
}

/// Whether the entry scales the revision down.
fn scales_down(revision: u64, entry: &Entry) -> bool
    ensures { result ≡ scales_down revision entry.now }
{
    match entry {
        Entry::Outcome(Outcome::ScaledDown(number)) => *number == revision,
        _ => false,
    }
}
