//! What holds of every rollout, for its callers.
ghost use Rattle.std.specs.Prelude.{◌≡◌, ◌≢◌, ◌≤◌, ◌+◌, ◌∷◌, ◌==◌, ◌||◌, not, ℕ, true, List, length, map, None, Some, replicate, reverse, slice_get, sum_by};
ghost use Rattle.std.specs.List.{list_all};
ghost use Rattle.bg_strategy.specs.declared.strategy.Strategy.{Strategy};
ghost use Rattle.bg_history.specs.declared.entry.Entry.{Entry};
ghost use Rattle.bg_history.specs.declared.entry.Entry.TheVariants.{Leave};
ghost use Rattle.bg_history.specs.declared.entry.Outcome.{Outcome};
ghost use Rattle.bg_history.specs.Kept.{Opening};
ghost use Rattle.bg_history.specs.Deadlines.{deadline};
ghost use Rattle.bg_history.specs.Requests.{calls_of, open_at, open_requests};
ghost use Rattle.bg_history.specs.Sizes.{existing};
ghost use Rattle.bg_history.specs.Steps.{Follows, IsLegal};
ghost use Rattle.bg_history_laws.specs.Compaction.{Answers, Same};
ghost use Rattle.bg_history_laws.specs.Journaled.{journaled};
ghost use Rattle.bg_history_laws.specs.Listed.{revisions_of};
ghost use Rattle.bg_history_laws.specs.Work.{work};
ghost use Rattle.bg_ledger.specs.declared.holding.Holding.{Holding};
ghost use Rattle.bg_rollout.specs.RequestLists.{requests_of};
ghost use Rattle.bg_rollout.specs.Compaction.{with_compacted};
ghost use Rattle.bg_rollout.specs.Gathering.{are_all, gather_fault};
ghost use Rattle.bg_rollout.specs.declared.follow_fault.JournalFault.{JournalFault};
ghost use Rattle.bg_rollout.specs.declared.limits.Limits.{Limits};
ghost use Rattle.bg_rollout.specs.Following.{IsShortage, JournalFaultIs};
ghost use Rattle.bg_rollout.specs.Invariant.{RoutingInvariant};
ghost use Rattle.bg_rollout.specs.PastState.{lists_of, requests_at, share};
ghost use Rattle.bg_rollout.specs.Refusals.{all_open};
ghost use Rattle.bg_rollout.specs.Routing.{Routing};
ghost use Rattle.bg_rollout.specs.State.{deadline_at, open_count_at, revision_at, state_of, without_requests};
ghost use Rattle.bg_history.specs.Tables.{table_of};

use bg_history_laws as laws;
use bg_scaledown::laws as scaledown_laws;

/// The list of each revision has exactly its open requests, each at the node of its seat's index. Their number is the
/// sum of the seats' shares.
pub fn lists_requests()
    ensures nodes { (b : Routing) → RoutingInvariant b
        → (r : ℕ) → requests_of r b.lists ≡ requests_at r b.past }
    ensures numbers { (b : Routing) → RoutingInvariant b
        → (r : ℕ) → map (λ q. q.number) (requests_of r b.lists) ≡ open_at r b.past }
    ensures shares { (b : Routing) → RoutingInvariant b
        → (r : ℕ) → sum_by (share r) b.seats ≡ length (open_at r b.past) }
{
    laws::reachable();
}

/// The running state says of its revisions what the past says: how many exist, which one is at a place, and the
/// deadline and the number of open requests of each.
pub fn state_tells()
    ensures count { (b : Routing) → RoutingInvariant b
        → length b.running.revisions ≡ length (existing b.past) }
    ensures revisions { (b : Routing) → RoutingInvariant b → (place : ℕ)
        → revision_at b.running place
        ≡ slice_get (revisions_of b.strategy b.opening b.past) place }
    ensures deadlines { (b : Routing) → RoutingInvariant b → (r : ℕ)
        → deadline_at b.running r ≡ deadline b.strategy r b.past }
    ensures open { (b : Routing) → RoutingInvariant b → (r : ℕ)
        → open_count_at b.running r ≡ length (open_at r b.past) }
{
    laws::reachable();
    scaledown_laws::table_tells_deadlines();
}

/// A seat with a request has one of the open requests: after it leaves there is one less, and each open request of
/// its number is at its revision.
pub fn has_request()
    ensures one_less { (b : Routing) (seat : Holding) → RoutingInvariant b
        → slice_get b.seats seat.index ≡ Some seat → seat.number ≢ 0
        → all_open (Leave seat.index seat.number seat.revision ∷ b.past) + 1 ≡ all_open b.past }
    ensures alone { (b : Routing) (seat : Holding) → RoutingInvariant b
        → slice_get b.seats seat.index ≡ Some seat → seat.number ≢ 0
        → list_all (λ q. not (q.number == seat.number) || (q.revision == seat.revision))
        (open_requests b.past) ≡ true }
{}

/// The number of outcomes that follow one another is at most the work.
pub fn few_follow()
    ensures { (s : Strategy) (past : List Entry) (outcomes : List Outcome)
        → Follows s outcomes past → length outcomes ≤ work s past }
{
    laws::work_falls();
}

/// The seats of a book can be gathered if none of them holds a request.
pub fn gathers()
    ensures { (count : ℕ) (seats : List Holding) → are_all count seats ≡ true
        → ((i : ℕ) (seat : Holding) → slice_get seats i ≡ Some seat → seat.number ≡ 0)
        → gather_fault count seats ≡ None }
{}

/// Compaction keeps the invariant of a routing, its lists of open requests and its revisions.
pub fn compaction_keeps()
    ensures holds_invariant { (b : Routing) → RoutingInvariant b → RoutingInvariant (with_compacted b) }
    ensures lists { (s : Strategy) (o : Opening) (a b : List Entry) → Same s o a b
        → lists_of a ≡ lists_of b }
    ensures revisions { (s : Strategy) (o : Opening) (a b : List Entry) → Same s o a b
        → revisions_of s o a ≡ revisions_of s o b }
    ensures states { (s : Strategy) (o : Opening) (closed new : List ℕ) (a b : List Entry)
        → Same s o a b → Answers s o a b → table_of s a ≡ table_of s b
        → ((i : ℕ) → calls_of closed i a ≡ calls_of new i b)
        → state_of s o closed a ≡ state_of s o new b }
{
    laws::compacts();
    laws::keeps_table();
}

/// A legal past without the entries of its requests has the same state, but for the open requests, the seats and their
/// number.
pub fn journal_keeps_state()
    ensures { (s : Strategy) (o : Opening) (closed : List ℕ) (past : List Entry) (seats : ℕ)
        → IsLegal s o closed past
        → state_of s (record o { seats = seats }) (replicate seats 0) (journaled past)
        ≡ without_requests seats (state_of s o closed past) }
{
    laws::journals();
}

/// A legal past without the entries of its requests is followed as a journal, for any number of seats, unless room or
/// memory is short.
pub fn journals_are_followed()
    ensures { (s : Strategy) (o : Opening) (closed : List ℕ) (past : List Entry) (seats : ℕ)
        (limits : Limits) (fault : JournalFault)
        → IsLegal s o closed past → 1 ≤ seats → seats ≤ 2048
        → JournalFaultIs s (record o { seats = seats }) limits (reverse (journaled past)) fault
        → IsShortage fault }
{
    laws::journals();
}
