//! What holds of the table of every past.
ghost use Rattle.std.specs.Prelude.{◌≡◌, ◌≤◌, ℕ, true, List, length, is_some, IsTrue, IsFalse};
ghost use Rattle.bg_strategy.specs.declared.strategy.Strategy.{Strategy};
ghost use Rattle.bg_history.specs.declared.entry.Entry.{Entry};
ghost use Rattle.bg_history.specs.AttemptBounds.{moment, newest_of};
ghost use Rattle.bg_history.specs.Selections.{active_of, selectors_of};
ghost use Rattle.bg_history.specs.Sizes.{existing};
ghost use Rattle.bg_history.specs.Deadlines.{deadline, exists_in, is_due};
ghost use Rattle.bg_scaledown.specs.Due.{deadline_in, has_room_for, is_due_in};
ghost use Rattle.bg_scaledown.specs.Events.{may_mark};
ghost use Rattle.bg_history.specs.Tables.{table_of, DeadlinesInvariant};

use bg_history::laws as history_laws;

/// There is room for each revision that the next entry marks, even if it marks two. This holds while the active and
/// the newest revision exist, the active one has no deadline, and at most 64 revisions exist.
pub fn next_has_room()
    ensures { (s : Strategy) (past : List Entry) (next : Entry) → DeadlinesInvariant s past
        → IsTrue (exists_in (active_of past) past)
        → IsFalse (is_some (deadline s (active_of past) past))
        → IsTrue (exists_in (newest_of past) past)
        → length (existing past) ≤ 64
        → has_room_for (may_mark next (selectors_of past)) (table_of s past).marks ≡ true }
{
    history_laws::existing_ascends();
}

/// With the moment and the selectors of a past, the table of the past says of each revision whether it is due, as
/// the past does.
pub fn table_tells_due()
    ensures { (s : Strategy) (past : List Entry) (r : ℕ) → DeadlinesInvariant s past
        → is_due_in (table_of s past) r (moment past) (selectors_of past) ≡ is_due s r past }
{
    history_laws::existing_ascends();
}

/// The table of a past gives the deadline of each revision, as the past does.
pub fn table_tells_deadlines()
    ensures { (s : Strategy) (past : List Entry) (r : ℕ)
        → deadline_in (table_of s past) r ≡ deadline s r past }
{}
