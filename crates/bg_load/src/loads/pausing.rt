//! How large requests are paused while requests take too much memory.
ghost use Rattle.std.specs.Prelude.{◌≡◌, ◌<◌, ◌≤◌, ℕ, EachIndex, IfNone, IfSome, false, length, true};
ghost use Rattle.bg_load.specs.Changes.{turned_at};
ghost use Rattle.bg_load.specs.Pauses.{IsAsRuled, enough, has_paused, is_large_from, is_stuck, is_to_pause, looked};
ghost use Rattle.bg_load.specs.Pauses.{pauses_now, pauses_of, regulated, seeks_stuck};
ghost use Rattle.bg_load.specs.Registers.{at};
ghost use Rattle.bg_load.specs.declared.pauses.Pauses.TheVariants as pauses;

use super::Loads;
use crate::pauses::{Pauses, is_large_from};
use crate::ranking::Ranking;
use crate::settings::LoadSettings;

/// The number of large requests that go on while the younger ones are paused.
const LARGE_THAT_GO_ON: u32 = 8;

impl LoadSettings {
    /// The number of bytes of requests below which no request is paused.
    fn enough(self) -> u64
        ensures { result ≡ enough self }
    {
        self.request_bytes / 4 * 3
    }
}

impl Loads {
    /// Looks whether requests take too much memory, and then pauses or resumes one request, the first one by its key of
    /// those that are otherwise than the rule says. Gives its key; `None` if each is as the rule says.
    ///
    /// Pauses begin when the requests of all loops of the port take more than `request_bytes` of the settings, and go on until
    /// they take less than three quarters of that. Meanwhile all large requests of this loop are paused but its eight oldest, so
    /// that some are completed; these too while the requests that wait for a seat alone, of all loops, take more than half of
    /// `request_bytes`, since further ones would only wait with them. A request is large from 32,768 bytes on. The pace of a
    /// request is measured from the end of a pause on.
    pub fn regulate(&mut self, now: u64) -> Option<usize>
        ensures unruled { IfSome result (λ key. ¬ IsAsRuled (pauses_of (looked self.old)) self.old.places
            (at self.old.places key)) }
        ensures first { IfSome result (λ key. (other : ℕ) → other < key
            → IsAsRuled (pauses_of (looked self.old)) self.old.places (at self.old.places other)) }
        ensures new { IfSome result (λ key. self.new ≡ regulated self.old key now) }
        ensures none { IfNone result (EachIndex self.old.places (λ other.
            IsAsRuled (pauses_of (looked self.old)) self.old.places (at self.old.places other))) }
        ensures kept { IfNone result (self.new ≡ looked self.old) }
    {
        self.is_pausing = self.pauses_now();
        if !self.is_pausing && !self.has_paused() {
            return None;
        }
        let key = self.first_unruled(self.pauses())?;
        self.turn(key, now);
        Some(key)
    }

    /// Whether the request of a connection is large, so that it may be paused. False if no connection has the key.
    pub fn is_large(&self, key: usize) -> bool
        ensures { result ≡ is_large_from 0 (at self.now.places key) }
    {
        is_large_from(self.table.get(key), 0)
    }

    /// Whether a request of this loop is paused.
    pub fn has_paused(&self) -> bool
        ensures { result ≡ has_paused self.now }
    {
        self.totals().paused > 0
    }

    /// The key of the first connection from this one on whose request is large, paused or not, and slower than its pace,
    /// while large requests are paused and those of all loops take three quarters of `request_bytes` of the settings, or more;
    /// `None` if there is none. If no bytes of it wait to be read, its client is to be given up.
    pub fn stuck_from(&self, from: usize, now: u64) -> Option<usize>
        ensures when { IfSome result (λ _. seeks_stuck self.now ≡ true) }
        ensures from { IfSome result (λ key. from ≤ key) }
        ensures stuck { IfSome result (λ key. is_stuck now (at self.now.places key) ≡ true) }
        ensures first { IfSome result (λ key. (other : ℕ) → from ≤ other → other < key
            → is_stuck now (at self.now.places other) ≡ false) }
        ensures none { IfNone result (seeks_stuck self.now ≡ true → (other : ℕ) → from ≤ other
            → other < length self.now.places → is_stuck now (at self.now.places other) ≡ false) }
    {
        if !self.is_pausing || self.request_bytes() < u128::from(self.settings.enough()) {
            return None;
        }
        self.table.stuck_from(from, now)
    }

    /// Whether large requests are to be paused, by what requests take now.
    fn pauses_now(&self) -> bool
        ensures { result ≡ pauses_now self.now }
    {
        let taken = self.request_bytes();
        taken > u128::from(self.settings.request_bytes)
            || self.is_pausing && taken >= u128::from(self.settings.enough())
    }

    /// Which large requests are paused.
    pub(super) fn pauses(&self) -> Pauses
        ensures { result ≡ pauses_of self.now }
    {
        if !self.is_pausing {
            Pauses::Off
        } else if self.waiting_bytes() > u128::from(self.settings.request_bytes / 2) {
            Pauses::All
        } else {
            Pauses::Younger
        }
    }

    /// The key of the first connection whose request is paused, or goes on, otherwise than the rule says; `None` if each is
    /// as the rule says.
    fn first_unruled(&self, which: Pauses) -> Option<usize>
        ensures unruled { IfSome result (λ key. ¬ IsAsRuled which self.now.places (at self.now.places key)) }
        ensures first { IfSome result (λ key. (other : ℕ) → other < key
            → IsAsRuled which self.now.places (at self.now.places other)) }
        ensures none { IfNone result (EachIndex self.now.places (λ other.
            IsAsRuled which self.now.places (at self.now.places other))) }
    {
        let least = self.paused_from(which);
        self.table.first_unlike(least)
    }

    /// The number from which on large requests are to be paused.
    fn paused_from(&self, which: Pauses) -> u64
        ensures { (key : ℕ) → is_large_from result (at self.now.places key)
            ≡ is_to_pause which self.now.places (at self.now.places key) }
    {
        match which {
            Pauses::Off => self.next,
            Pauses::Younger => self.after_oldest(),
            Pauses::All => 0,
        }
    }

    /// The number that follows those of the eight oldest large requests; if they are fewer, the next number.
    fn after_oldest(&self) -> u64
        ensures { (key : ℕ) → is_large_from result (at self.now.places key)
            ≡ is_to_pause pauses.Younger self.now.places (at self.now.places key) }
    {
        let next = self.next;
        let mut least = 0u64;
        for _ in 0..LARGE_THAT_GO_ON {
            let Some((_key, number)) = self.table.first_in(Ranking::LargeFrom(least)) else {
                return next;
            };
            least = number.saturating_add(1);
        }
        least
    }

    /// Pauses the request of a connection, or resumes it if it is paused.
    fn turn(&mut self, key: usize, now: u64)
        ensures { self.new ≡ turned_at self.old key now }
    {
        if let Some(connection) = self.table.get(key) {
            self.set_load(key, connection, connection.load.turned(now));
        }
    }
}
