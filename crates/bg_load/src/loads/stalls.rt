//! Uploads that stand still while others are paused for them.
ghost use Rattle.std.specs.Prelude.{◌≡◌, ◌↔◌, ◌<◌, ℕ, EachIndex, IfNone, IfSome, IsSome, IsTrue, None};
ghost use Rattle.bg_load.specs.Rankings.{IsEarlier, IsNoLater};
ghost use Rattle.bg_load.specs.Registers.{at};
ghost use Rattle.bg_load.specs.Stalls.{IsStalled, quarter_of_loop, still_since};

use super::Loads;
use crate::pauses::Pauses;
use crate::ranking::Ranking;
use crate::settings::LoadSettings;

impl LoadSettings {
    /// The part of a loop in a quarter of `request_bytes`.
    fn quarter_of_loop(self) -> u64
        ensures { result ≡ quarter_of_loop self }
    {
        self.request_bytes / 4 / self.loops.max(1)
    }
}

impl Loads {
    /// The key of the large request that has made no progress for the longest time, and is to be given up, if the loop is
    /// stalled, the first by its key if there are several; `None` if the loop is not stalled, or if no request is large. A
    /// request holds as much memory as it has sent, so this one makes the least progress for its memory.
    ///
    /// The loop is stalled if the younger large requests are paused, if none of its own that go on has made progress for 750
    /// milliseconds, if the requests of all loops take more than a quarter of `request_bytes` of the settings, and if its own
    /// take more than its part of that quarter.
    pub fn stalled(&self, now: u64) -> Option<usize>
        ensures when { IfSome result (λ _. IsStalled self.now now) }
        ensures large { IfSome result (λ key. IsSome (still_since (at self.now.places key))) }
        ensures least { IfSome result (λ key. EachIndex self.now.places (λ other.
            IsNoLater (still_since (at self.now.places key)) (still_since (at self.now.places other)))) }
        ensures first { IfSome result (λ key. (other : ℕ) → other < key
            → IsEarlier (still_since (at self.now.places key)) (still_since (at self.now.places other))) }
        ensures none { IfNone result (IsStalled self.now now → EachIndex self.now.places (λ other.
            still_since (at self.now.places other) ≡ None)) }
    {
        if !self.is_stalled(now) {
            return None;
        }
        let (key, _since) = self.table.first_in(Ranking::Still)?;
        Some(key)
    }

    /// Whether the loop is stalled.
    fn is_stalled(&self, now: u64) -> bool
        ensures { IsTrue result ↔ IsStalled self.now now }
    {
        self.pauses() == Pauses::Younger
            && self.request_bytes() > u128::from(self.settings.request_bytes / 4)
            && self.totals().request_bytes > self.settings.quarter_of_loop()
            && !self.table.has_moving(now)
    }
}
