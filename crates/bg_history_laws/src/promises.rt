//! What a legal history promises to the users of the switch.
ghost use Rattle.std.specs.Prelude.{◌≡◌, ◌++◌, ◌||◌, ℕ, List, Some, IsTrue, IsFalse};
ghost use Rattle.bg_strategy.specs.declared.strategy.Strategy.{Strategy};
ghost use Rattle.bg_history.specs.declared.entry.Entry.{Entry};
ghost use Rattle.bg_history.specs.declared.entry.Entry.TheVariants.{Leave};
ghost use Rattle.bg_history.specs.declared.entry.Outcome.{Outcome};
ghost use Rattle.bg_history.specs.Compacted.{compacted};
ghost use Rattle.bg_history.specs.Kept.{Opening, Template};
ghost use Rattle.bg_history.specs.AttemptBounds.{newest_of, is_running};
ghost use Rattle.bg_history.specs.Attempts.{has_promote, has_promote_full};
ghost use Rattle.bg_history.specs.Requests.{Request};
ghost use Rattle.bg_history.specs.Templates.{template};
ghost use Rattle.bg_history.specs.Allowed.{is_allowed};
ghost use Rattle.bg_history.specs.Steps.{IsLegal, is_settled, Step};
ghost use Rattle.bg_history_laws.specs.Rollback.{CanRollBack};
ghost use Rattle.bg_history_laws.specs.FullPromotion.{CanPromote};
ghost use Rattle.bg_history_laws.specs.Live.{has_pre_success, may_go_live, OnlyTestedIsLive};
ghost use Rattle.bg_history_laws.specs.Draining.{WaitsFor, IsScaledDown};
ghost use Rattle.bg_history_laws.specs.OpenRequests.{IsServed, LeavesAsItself, is_leaving, is_outcome, open_request, stays};

use crate::{compaction, facts};

/// A rollback is always possible. A legal past allows an abort while an attempt runs, even if the new revision is
/// already active; a verdict of failed or error while its analysis is awaited; and a deploy of the stable revision's
/// template while another revision is the newest. After each of them both services select the stable revision, which
/// exists, is scaled, and has as many available endpoints as before.
pub fn can_roll_back()
    ensures { (s : Strategy) (o : Opening) (closed : List ℕ) (past : List Entry)
        → IsLegal s o closed past → CanRollBack s o past }
{
    facts::reachable();
}

/// A running attempt can always be promoted. In a legal past in which an attempt runs, at most three calls fully
/// promote its revision: a full promotion, unless the attempt has one, and then up to two reports that all desired
/// endpoints of the revision are available. Each call is allowed after the ones before it.
pub fn can_promote()
    ensures { (s : Strategy) (o : Opening) (closed : List ℕ) (past : List Entry)
        → IsLegal s o closed past → IsTrue (is_running past)
        → CanPromote 3 s o (newest_of past) past }
{
    facts::reachable();
}

/// No live request reaches an untested revision. In a legal past, the active revision and the revision of each request
/// that entered at the active service are tested: each is the first revision, or the active service switched to it
/// before in an attempt that might go live. An attempt might go live if it was fully promoted; or if its pause was
/// over and the analysis before the switch had succeeded in it or none is set. So if an analysis is set, it had
/// succeeded or the attempt was fully promoted; and if promotion isn't automatic, an operator had promoted the
/// attempt.
pub fn only_tested_is_live()
    ensures live { (s : Strategy) (o : Opening) (closed : List ℕ) (past : List Entry)
        → IsLegal s o closed past → OnlyTestedIsLive s past }
    ensures tested { (s : Strategy) (past : List Entry) → IsTrue s.pre → IsTrue (may_go_live s past)
        → IsTrue (has_pre_success past || has_promote_full past) }
    ensures by_hand { (s : Strategy) (past : List Entry) → IsFalse s.auto_promotion
        → IsTrue (may_go_live s past) → IsTrue (has_promote past || has_promote_full past) }
{}

/// A drained revision is scaled down with its last request. If a revision is due in a legal settled past and has one
/// open request, the step in which the request leaves scales the revision down.
pub fn drained_is_scaled_down()
    ensures { (s : Strategy) (o : Opening) (closed : List ℕ) (past : List Entry)
        (seat number r : ℕ) (outcomes : List Outcome) (new : List Entry)
        → IsLegal s o closed past → IsTrue (is_settled s past) → WaitsFor s number r past
        → Step s (Leave seat number r) past outcomes new → IsScaledDown s r new }
{}

/// A switch loses no request. An open request stays open at its revision and its port until it leaves, and until then
/// its revision exists, is scaled and keeps its ports. This holds regardless of the entries that follow (`served`), at
/// each step of another event (`stepped`, which requires of the past only that the request is served there), and after
/// compaction (`compacted`). It holds for every open request (`every`). A Leave takes the open request of its number,
/// which is one of its own seat and revision (`own`).
pub fn keeps_requests()
    ensures every { (s : Strategy) (o : Opening) (closed : List ℕ) (past : List Entry) (q : Request)
        → IsLegal s o closed past → open_request q.number past ≡ Some q
        → (t : Template) × IsServed s o q t past }
    ensures served { (s : Strategy) (o : Opening) (closed : List ℕ) (later past : List Entry)
        (q : Request) (t : Template) → IsLegal s o closed (later ++ past)
        → open_request q.number past ≡ Some q → template o q.revision past ≡ Some t
        → IsTrue (stays q.number later) → IsServed s o q t (later ++ past) }
    ensures stepped { (s : Strategy) (o : Opening) (e : Entry) (past : List Entry)
        (outcomes : List Outcome) (new : List Entry) (q : Request) (t : Template)
        → IsServed s o q t past → IsFalse (is_outcome e) → IsFalse (is_leaving q.number e)
        → Step s e past outcomes new → IsServed s o q t new }
    ensures compacted { (s : Strategy) (o : Opening) (closed : List ℕ) (past : List Entry)
        (q : Request) (t : Template) → IsLegal s o closed past → IsServed s o q t past
        → IsServed s o q t (compacted past) }
    ensures own { (s : Strategy) (o : Opening) (closed : List ℕ) (past : List Entry)
        (seat number r : ℕ) → IsLegal s o closed past
        → IsTrue (is_allowed s o (Leave seat number r) past) → LeavesAsItself seat number r past }
{
    facts::reachable();
    compaction::compacts();
}
