//! A row of marks of fixed size.
ghost use Rattle.std.specs.Prelude.{◌≡◌, ◌<◌, ◌≤◌, [], ◌∷◌, ◌++◌, length};

use bg_history::{Cause, RevisionMark};
use std::marker::Model;

/// The greatest number of marks in a row: one for each revision.
const MOST_MARKS: usize = 64;

const NO_MARK: RevisionMark = RevisionMark {
    revision: 0,
    cause: Cause::Superseded,
    deadline: 0,
};

/// At most 64 marks in an array. Contracts see them as a list.
#[derive(Drop)]
pub struct MarkList {
    table: [RevisionMark; MOST_MARKS],
    count: usize,
}

impl Model for MarkList {
    ghost use Rattle.std.specs.Prelude.{◌≤◌, List, take};
    ghost use Rattle.bg_history.specs.declared.mark.RevisionMark.{RevisionMark};

    ghost Value = { List RevisionMark };

    ghost view = { λ m. take m.count m.table };

    ghost invariant = { λ m. m.count ≤ 64 };
}

impl MarkList {
    /// No mark.
    pub fn new() -> MarkList
        ensures { result ≡ [] }
    {
        MarkList {
            table: [NO_MARK; MOST_MARKS],
            count: 0,
        }
    }

    /// Adds a mark at the end.
    pub fn push(&mut self, mark: RevisionMark)
        requires { length self.old < 64 }
        ensures { self.new ≡ self.old ++ mark ∷ [] }
    {
        self.table[self.count] = mark;
        self.count += 1;
    }

    /// The marks in order.
    pub fn as_slice(&self) -> &[RevisionMark]
        ensures marks { result.now ≡ self.now }
        ensures few { length result.now ≤ 64 }
    {
        &self.table[..self.count]
    }
}
