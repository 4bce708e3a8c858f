//! What holds of every past.
ghost use Rattle.std.specs.Prelude.{List};
ghost use Rattle.bg_history.specs.declared.entry.Entry.{Entry};
ghost use Rattle.bg_history.specs.Sizes.{existing, Ascends};

/// The numbers of the existing revisions are in ascending order.
pub fn existing_ascends()
    ensures { (past : List Entry) → Ascends (existing past) }
{}
