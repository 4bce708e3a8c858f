//! When the loops of a port are full, and which connections make room.
ghost use Rattle.std.specs.Prelude.{◌≡◌, ◌<◌, ℕ, EachIndex, IfNone, IfSome, IsSome, None, is_some, nat_lt};
ghost use Rattle.bg_load.specs.Rankings.{IsEarlier, IsNoLater};
ghost use Rattle.bg_load.specs.Registers.{at};
ghost use Rattle.bg_load.specs.Room.{answering_since, has_too_many_responses, idle_since, is_full, is_full_of_responses};
ghost use Rattle.bg_load.specs.Room.{part_of_loop, pending, slow_at};
ghost use Rattle.bg_load.specs.Totals.{response_bytes_in};

use super::Loads;
use crate::among::Among;
use crate::ranking::Ranking;
use crate::settings::LoadSettings;

impl LoadSettings {
    /// The part of a loop in twice what responses may take.
    fn part_of_loop(self) -> u128
        ensures { result ≡ part_of_loop self }
    {
        u128::from(self.response_bytes) * 2 / u128::from(self.loops.max(1))
    }
}

impl Loads {
    /// The number of connections of all loops that hold no seat.
    fn pending(&self) -> u128
        ensures { result ≡ pending self.now }
    {
        self.connections().saturating_sub(self.inside())
    }

    /// Whether no further connection is to be accepted for now: as many connections of all loops as the settings allow hold no
    /// seat, or `is_full_of_responses`.
    pub fn is_full(&self) -> bool
        ensures { result ≡ is_full self.now }
    {
        self.pending() >= u128::from(self.settings.connections) || self.is_full_of_responses()
    }

    /// Whether the responses of all loops take more than twice the memory that the settings give: no further connection is to be
    /// accepted for now.
    pub fn is_full_of_responses(&self) -> bool
        ensures { result ≡ is_full_of_responses self.now }
    {
        self.response_bytes() / 2 > u128::from(self.settings.response_bytes)
    }

    /// Whether the responses of all loops take more memory than this, in bytes.
    pub fn responses_take_more_than(&self, bytes: u64) -> bool
        ensures { result ≡ nat_lt bytes (response_bytes_in self.now) }
    {
        self.response_bytes() > u128::from(bytes)
    }

    /// The key of the connection that is slow and has made no progress for the longest time, among these, the first by its
    /// key if there are several; `None` if none is slow. A request that is paused is not slow.
    pub fn slowest(&self, among: Among, now: u64) -> Option<usize>
        ensures slow { IfSome result (λ key. IsSome (slow_at among now (at self.now.places key))) }
        ensures least { IfSome result (λ key. EachIndex self.now.places (λ other.
            IsNoLater (slow_at among now (at self.now.places key)) (slow_at among now (at self.now.places other)))) }
        ensures first { IfSome result (λ key. (other : ℕ) → other < key
            → IsEarlier (slow_at among now (at self.now.places key)) (slow_at among now (at self.now.places other))) }
        ensures none { IfNone result (EachIndex self.now.places (λ other.
            slow_at among now (at self.now.places other) ≡ None)) }
    {
        let (key, _since) = self.table.first_in(Ranking::Slow(among, now))?;
        Some(key)
    }

    /// The key of the connection whose client has taken nothing of its response for the longest time, and is to make room, the
    /// first by its key if there are several. It is the one that has made no progress for the longest time of those whose
    /// responses are written, slow or not. `None` exactly if the responses of all loops take no more than twice the memory that
    /// the settings give, or those of this loop no more than its part of that.
    pub fn stillest_response(&self) -> Option<usize>
        ensures when { is_some result ≡ has_too_many_responses self.now }
        ensures answering { IfSome result (λ key. IsSome (answering_since (at self.now.places key))) }
        ensures least { IfSome result (λ key. EachIndex self.now.places (λ other.
            IsNoLater (answering_since (at self.now.places key)) (answering_since (at self.now.places other)))) }
        ensures first { IfSome result (λ key. (other : ℕ) → other < key
            → IsEarlier (answering_since (at self.now.places key)) (answering_since (at self.now.places other))) }
    {
        if !self.has_too_many_responses() {
            return None;
        }
        let (key, _since) = self.table.first_in(Ranking::Answering)?;
        Some(key)
    }

    /// Whether responses take too much, and those of this loop more than its part.
    fn has_too_many_responses(&self) -> bool
        ensures { result ≡ has_too_many_responses self.now }
    {
        self.is_full_of_responses()
            && u128::from(self.totals().response_bytes) > self.settings.part_of_loop()
    }

    /// The key of the connection that has been idle for the longest time, the first by its key if there are several; `None`
    /// if none is idle.
    pub fn oldest_idle(&self) -> Option<usize>
        ensures idle { IfSome result (λ key. IsSome (idle_since (at self.now.places key))) }
        ensures least { IfSome result (λ key. EachIndex self.now.places (λ other.
            IsNoLater (idle_since (at self.now.places key)) (idle_since (at self.now.places other)))) }
        ensures first { IfSome result (λ key. (other : ℕ) → other < key
            → IsEarlier (idle_since (at self.now.places key)) (idle_since (at self.now.places other))) }
        ensures none { IfNone result (EachIndex self.now.places (λ other.
            idle_since (at self.now.places other) ≡ None)) }
    {
        let (key, _since) = self.table.first_in(Ranking::Idle)?;
        Some(key)
    }
}
