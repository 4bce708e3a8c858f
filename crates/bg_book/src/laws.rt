//! What holds of every book, regardless of the calls that made it.
ghost use Rattle.std.specs.Prelude.{◌≡◌, ◌<◌, ◌++◌, ℕ, List, length, take, drop, get_or, slice_get, slice_set, Some, IsTrue};
ghost use Rattle.bg_history.specs.AttemptBounds.{newest_of, is_running};
ghost use Rattle.bg_history_laws.specs.Rollback.{CanRollBack};
ghost use Rattle.bg_history_laws.specs.FullPromotion.{CanPromote};
ghost use Rattle.bg_history_laws.specs.Live.{OnlyTestedIsLive};
ghost use Rattle.bg_ledger.specs.declared.holding.Holding.{Holding};
ghost use Rattle.bg_rollout.specs.Compaction.{with_compacted};
ghost use Rattle.bg_rollout.specs.Gathering.{indices};
ghost use Rattle.bg_book.specs.Compaction.{KeepsReply, SameState};
ghost use Rattle.bg_book.specs.Headline.{Headline};
ghost use Rattle.bg_book.specs.Promises.{CallsPromote, CallsRollBack, EntersTested, KeepsRequests, LastLeaveScalesDown};

use crate::book::Book;
use crate::calls::Call;
use bg_history_laws as laws;
use bg_ledger::{Names, Seat};
use bg_rollout::laws as rollout_laws;

/// The headline, which says of every book:
///
/// - The running state is the fold of the book's history.
/// - The deadline that the state shows for each revision is the one that the history gives.
/// - The history is legal.
/// - No allowed outcome is left undone.
/// - Both services select existing scaled revisions.
/// - The active revision was reached only by the documented rule (Argo Rollouts, "BlueGreen Deployment Strategy").
/// - The list of each revision has exactly its open requests, each at the node of its seat's index. Their number is
///   the sum of the seats' shares.
/// - The record of each seat is what the history says.
/// - No revision that is scaled down has an open request.
pub fn headline<N: Names>(book: &Book<N>)
    ensures { Headline book.now }
{
    rollout_laws::lists_requests();
    laws::reachable();
    rollout_laws::state_tells();
    book.rollout.holds_invariant();
}

/// A vector of seats that was lent as a slice has the seats that the slice had at its end, if no index changed.
pub fn lent()
    ensures { (len : ℕ) (items now new : List Holding) → now ≡ items → indices new ≡ indices now
        → length items ≡ len → take len (new ++ drop (length new) items) ≡ new }
{}

/// Seats keep their order if each keeps its index, or if one seat keeps its index and the others don't change.
pub fn same_order()
    ensures each { (old new : List Holding) → length new ≡ length old
        → ((i : ℕ) (before after : Holding) → slice_get old i ≡ Some before
        → slice_get new i ≡ Some after → after.index ≡ before.index)
        → indices new ≡ indices old }
    ensures one { (seats : List Holding) (place : ℕ) (d new : Holding) → place < length seats
        → new.index ≡ (get_or seats place d).index
        → indices (slice_set seats place new) ≡ indices seats }
{}

/// Compaction keeps the headline and the state. The compacted book replies to each call as the book does, unless the
/// book's reply is `HistoryFull`. The two books after the call compact to the same book.
pub fn compacted<N: Names>(book: &Book<N>, seats: &[Seat<N>], call: &Call)
    ensures reply { KeepsReply book.now seats.now call.now }
    ensures state { SameState book.now (with_compacted book.now) }
    ensures headline { Headline (with_compacted book.now) }
{
    laws::commutes();
    rollout_laws::compaction_keeps();
    laws::compacts();
    laws::compacts_once();
    laws::keeps_table();
    rollout_laws::lists_requests();
    laws::no_longer();
    laws::reachable();
    rollout_laws::state_tells();
    book.rollout.holds_invariant();
}

/// A rollback is always possible (`bg_history_laws::promises::can_roll_back`). These calls roll back: an abort while
/// an attempt runs, a verdict of failed or error while its analysis is awaited, and a deploy of the stable
/// revision's template while another revision is the newest. The only errors are `HistoryFull` and `OutOfMemory`.
/// After such a call, both services select the stable revision, which is scaled and has as many available endpoints
/// as before.
pub fn can_roll_back<N: Names>(book: &Book<N>)
    ensures past { CanRollBack book.now.strategy book.now.opening book.now.past }
    ensures calls { CallsRollBack book.now }
{
    laws::can_roll_back();
    laws::reachable();
    book.rollout.holds_invariant();
}

/// A running attempt can always be promoted (`bg_history_laws::promises::can_promote`). At most three calls make its
/// revision newest, active, preview and stable: a full promotion, unless the attempt has one, then reports that all
/// desired endpoints are available. The only errors are `HistoryFull` and `OutOfMemory`.
pub fn can_promote<N: Names>(book: &Book<N>)
    ensures past { IsTrue (is_running book.now.past)
        → CanPromote 3 book.now.strategy book.now.opening (newest_of book.now.past) book.now.past }
    ensures calls { IsTrue (is_running book.now.past)
        → CallsPromote 3 book.now (newest_of book.now.past) }
{
    laws::can_promote();
    book.rollout.holds_invariant();
}

/// No live request reaches an untested revision (`bg_history_laws::promises::only_tested_is_live`). `past` says this
/// of each request whose entries the history keeps, and `enters` of each request at the call by which it enters.
pub fn only_tested_is_live<N: Names>(book: &Book<N>)
    ensures past { OnlyTestedIsLive book.now.strategy book.now.past }
    ensures enters { EntersTested book.now }
{
    laws::only_tested_is_live();
    book.rollout.holds_invariant();
}

/// A drained revision is scaled down with its last request (`bg_history_laws::promises::drained_is_scaled_down`): if
/// a revision is due and has one open request, the call by which the request leaves scales the revision down.
pub fn drained_is_scaled_down<N: Names>(book: &Book<N>)
    ensures { LastLeaveScalesDown book.now }
{
    laws::drained_is_scaled_down();
    book.rollout.holds_invariant();
}

/// A switch loses no request (`bg_history_laws::promises::keeps_requests`): only its own Leave closes an open
/// request. Until then, its revision exists, is scaled and keeps its ports, regardless of other calls and of
/// compaction.
pub fn keeps_requests<N: Names>(book: &Book<N>)
    ensures { KeepsRequests book.now }
{
    laws::compacts();
    laws::keeps_requests();
    book.rollout.holds_invariant();
}
