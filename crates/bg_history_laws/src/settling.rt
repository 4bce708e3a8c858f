//! Settling: the outcomes after an event come to an end.
ghost use Rattle.std.specs.Prelude.{◌≡◌, ◌<◌, ◌≤◌, ℕ, false, true, not, if◌then◌else◌, ◌==◌, ◌||◌, nat_lt, List, ◌∷◌, length, find, Option, Some, None, IsTrue};
ghost use Rattle.std.specs.List.{list_all};
ghost use Rattle.bg_strategy.specs.declared.strategy.Strategy.{Strategy};
ghost use Rattle.bg_revisions.specs.declared.revision.Service.{Service};
ghost use Rattle.bg_history.specs.declared.entry.Entry.{Entry};
ghost use Rattle.bg_history.specs.declared.entry.Entry.TheVariants.{Enter, Leave, Outcome as came};
ghost use Rattle.bg_history.specs.declared.entry.Outcome.{Outcome};
ghost use Rattle.bg_history.specs.Sizes.{existing};
ghost use Rattle.bg_history.specs.Requests.{open_requests};
ghost use Rattle.bg_history.specs.Deadlines.{old_revisions, may_remove, may_scale_down};
ghost use Rattle.bg_history.specs.Steps.{first_allowed, is_settled, Follows, Step};
ghost use Rattle.bg_history_laws.specs.Removals.{first_of};
ghost use Rattle.bg_history_laws.specs.Settling.{Settling};
ghost use Rattle.bg_history_laws.specs.Work.{work};

use bg_history::laws as history_laws;

/// Each first allowed outcome reduces the work. So the number of outcomes that follow one another is at most the
/// work.
pub fn work_falls()
    ensures { (s : Strategy) (past : List Entry) (x : Outcome) → first_allowed s past ≡ Some x
        → work s (came x ∷ past) < work s past }
{
    history_laws::existing_ascends();
}

/// With at most 64 existing revisions the work is at most 136: 2 for each of the four steps of an
/// attempt, and 2 for each revision.
pub fn work_is_bounded()
    ensures { (s : Strategy) (past : List Entry) → length (existing past) ≤ 64
        → work s past ≤ 136 }
{}

/// After every event and every past, the outcomes come to an end in exactly one settled past. So the history after a
/// call is a function of the history before it and of the event. This law requires nothing of the past.
pub fn settles_once()
    ensures some { (s : Strategy) (e : Entry) (past : List Entry) → Settling s e past }
    ensures one { (s : Strategy) (e : Entry) (past : List Entry) (outcomes others : List Outcome)
        (new other : List Entry) → Step s e past outcomes new → Step s e past others other
        → (outcomes ≡ others) × (new ≡ other) }
{
    history_laws::existing_ascends();
}

/// If no allowed outcome is left undone, a request that enters allows none.
pub fn entering_settles()
    ensures { (s : Strategy) (past : List Entry) (seat : ℕ) (service : Service) (number r port : ℕ)
        → IsTrue (is_settled s past)
        → IsTrue (is_settled s (Enter seat service number r port ∷ past)) }
{}

/// If no allowed outcome is left undone, a request that leaves allows at most two outcomes: its revision is scaled
/// down, and the first of the old revisions is removed. The law requires that each open request of its number is at
/// its revision.
pub fn leaving_allows_two()
    ensures { (s : Strategy) (past : List Entry) (seat number r : ℕ) (outcomes : List Outcome)
        → IsTrue (is_settled s past)
        → list_all (λ q. not (q.number == number) || (q.revision == r)) (open_requests past) ≡ true
        → Follows s outcomes (Leave seat number r ∷ past) → length outcomes ≤ 2 }
{
    history_laws::existing_ascends();
}

/// If no allowed outcome is left undone, and the revision of a request that leaves may not be scaled down after it,
/// the Leave allows no outcome. The law requires that each open request of its number is at its revision.
pub fn leaving_settles()
    ensures { (s : Strategy) (past : List Entry) (seat number r : ℕ)
        → IsTrue (is_settled s past)
        → list_all (λ q. not (q.number == number) || (q.revision == r)) (open_requests past) ≡ true
        → may_scale_down s r (Leave seat number r ∷ past) ≡ false
        → IsTrue (is_settled s (Leave seat number r ∷ past)) }
{}

/// The next revision to remove is the first of the old ones if there are more of them than the strategy keeps;
/// otherwise there is none (Argo Rollouts, "Specification", `revisionHistoryLimit`).
pub fn oldest_is_removed()
    ensures { (s : Strategy) (past : List Entry)
        → find (λ r. may_remove s r past) (existing past)
        ≡ (if nat_lt s.history_limit (length (old_revisions s past))
        then first_of (old_revisions s past) else None) }
{}
