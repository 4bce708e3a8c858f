//! What compaction keeps of a past.
ghost use Rattle.std.specs.Prelude.{◌≡◌, ◌≤◌, ℕ, IsTrue, List, length};
ghost use Rattle.bg_strategy.specs.declared.strategy.Strategy.{Strategy};
ghost use Rattle.bg_history.specs.declared.entry.Entry.{Entry};
ghost use Rattle.bg_history.specs.declared.entry.Outcome.{Outcome};
ghost use Rattle.bg_history.specs.Kept.{Opening};
ghost use Rattle.bg_history.specs.Steps.{IsLegal, Step, all_allowed, is_settled};
ghost use Rattle.bg_history.specs.Tables.{table_of};
ghost use Rattle.bg_history.specs.Compacted.{compacted, closed_after};
ghost use Rattle.bg_history.specs.Sound.{is_sound as sound};
ghost use Rattle.bg_history_laws.specs.Compaction.{Compacts, Commutes, enters_anew};

/// A compacted legal past is legal. Each question about it has the same answer, and the counts of requests and calls
/// are the same.
pub fn compacts()
    ensures { (s : Strategy) (o : Opening) (closed : List ℕ) (past : List Entry)
        → IsLegal s o closed past → Compacts s o closed past }
{}

/// If no allowed outcome is left undone in a past, none is in the compacted past.
pub fn stays_settled()
    ensures { (s : Strategy) (o : Opening) (past : List Entry) → IsTrue (all_allowed s o past)
        → IsTrue (is_settled s past) → IsTrue (is_settled s (compacted past)) }
{}

/// An event leads from a past and from the compacted past to two pasts that compact to the same past.
pub fn commutes()
    ensures { (s : Strategy) (o : Opening) (closed : List ℕ) (e : Entry) (past : List Entry)
        (outcomes : List Outcome) (new : List Entry) → IsTrue (all_allowed s o past)
        → IsTrue (enters_anew e past) → Step s e past outcomes new
        → Commutes s o closed e past outcomes new }
{}

/// Compacting a compacted past changes nothing.
pub fn compacts_once()
    ensures past { (past : List Entry) → compacted (compacted past) ≡ compacted past }
    ensures closed { (past : List Entry) (closed : List ℕ)
        → closed_after (compacted past) closed ≡ closed }
{}

/// A past whose entries were allowed may be compacted.
pub fn is_sound()
    ensures { (s : Strategy) (o : Opening) (past : List Entry) → IsTrue (all_allowed s o past)
        → IsTrue (sound o.seats past) }
{}

/// A past and the compacted past make the same table of deadlines.
pub fn keeps_table()
    ensures { (s : Strategy) (o : Opening) (past : List Entry)
        → table_of s (compacted past) ≡ table_of s past }
{}

/// A compacted past is at most as long as the past.
pub fn no_longer()
    ensures { (past : List Entry) → length (compacted past) ≤ length past }
{}
