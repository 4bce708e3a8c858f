//! The marks, in the order in which they were made and in the order of their deadlines.
ghost use Rattle.std.specs.Prelude.{◌≡◌, ◌<◌, ◌≤◌, [], ◌∷◌, length};
ghost use Rattle.bg_scaledown.specs.Due.{marks_without};
ghost use Rattle.bg_scaledown.specs.Sorted.{comes_before, inserted, sorted, OncePerRevision};

use crate::mark_list::MarkList;
use bg_history::RevisionMark;
use std::marker::Model;

/// At most 64 marks, at most one of each revision. Contracts see them newest first. They are also kept in the order
/// of their deadlines, so a reader of either order starts at its front. No call allocates.
#[derive(Drop)]
pub struct Marks {
    newest_first: MarkList,
    by_deadline: MarkList,
}

impl Model for Marks {
    ghost use Rattle.std.specs.Prelude.{List};
    ghost use Rattle.bg_history.specs.declared.mark.RevisionMark.{RevisionMark};
    ghost use Rattle.bg_scaledown.specs.Sorted.{InBothOrders};

    ghost Value = { List RevisionMark };

    ghost view = { λ m. m.newest_first };

    ghost invariant = { λ m. InBothOrders m.newest_first m.by_deadline };
}

impl Marks {
    /// No mark.
    pub fn new() -> Marks
        ensures { result ≡ [] }
    {
        Marks {
            newest_first: MarkList::new(),
            by_deadline: MarkList::new(),
        }
    }

    /// Puts the mark in front, and drops the mark that its revision had.
    pub fn put(&mut self, mark: RevisionMark)
        requires { length (marks_without mark.revision self.old) < 64 }
        ensures { self.new ≡ mark ∷ marks_without mark.revision self.old }
    {
        let others = others(self.by_deadline.as_slice(), mark.revision);
        self.by_deadline = placed(others.as_slice(), mark);
        self.newest_first = marked(self.newest_first.as_slice(), mark);
    }

    /// Drops the mark of the revision, if it has one.
    pub fn drop_mark(&mut self, revision: u64)
        ensures { self.new ≡ marks_without revision self.old }
    {
        self.by_deadline = others(self.by_deadline.as_slice(), revision);
        self.newest_first = others(self.newest_first.as_slice(), revision);
    }

    /// The marks, the newest first.
    pub fn newest_first(&self) -> &[RevisionMark]
        ensures marks { result.now ≡ self.now }
        ensures few { length result.now ≤ 64 }
    {
        self.newest_first.as_slice()
    }

    /// The marks in ascending order of their deadlines; equal deadlines are in ascending order of the revision numbers.
    /// No revision has two marks.
    pub fn by_deadline(&self) -> &[RevisionMark]
        ensures marks { result.now ≡ sorted self.now }
        ensures once { OncePerRevision self.now }
    {
        self.by_deadline.as_slice()
    }
}

/// The marks of other revisions.
fn others(marks: &[RevisionMark], revision: u64) -> MarkList
    requires { length marks.now ≤ 64 }
    ensures { result ≡ marks_without revision marks.now }
{
    let mut kept = MarkList::new();
    for mark in marks {
        if mark.revision != revision {
            kept.push(*mark);
        }
    }
    kept
}

/// The mark, followed by the marks of other revisions.
fn marked(marks: &[RevisionMark], newest: RevisionMark) -> MarkList
    requires few { length marks.now ≤ 64 }
    requires room { length (marks_without newest.revision marks.now) < 64 }
    ensures { result ≡ newest ∷ marks_without newest.revision marks.now }
{
    let mut kept = MarkList::new();
    kept.push(newest);
    for mark in marks {
        if mark.revision != newest.revision {
            kept.push(*mark);
        }
    }
    kept
}

/// The mark in its place among marks that are sorted.
fn placed(marks: &[RevisionMark], mark: RevisionMark) -> MarkList
    requires { length marks.now < 64 }
    ensures { result ≡ inserted mark marks.now }
{
    let mut kept = MarkList::new();
    let mut is_placed = false;
    for other in marks {
        if !is_placed && comes_before(mark, *other) {
            kept.push(mark);
            is_placed = true;
        }
        kept.push(*other);
    }
    if !is_placed {
        kept.push(mark);
    }
    kept
}

/// Whether the first mark has the earlier deadline, or the same deadline and no greater revision number.
fn comes_before(first: RevisionMark, second: RevisionMark) -> bool
    ensures { result ≡ comes_before first second }
{
    first.deadline < second.deadline
        || (first.deadline == second.deadline && first.revision <= second.revision)
}
