//! The places of connections, with their totals.
ghost use Rattle.std.specs.Prelude.{◌≡◌, ◌+◌, ◌<◌, ◌≤◌, [], ℕ, EachIndex, IfNone, IfSome, None, OnErr, OnOk, Some, false, length, true};
ghost use Rattle.std.specs.Prelude.{slice_index_or, slice_set};
ghost use Rattle.bg_load.specs.Changes.{grown};
ghost use Rattle.bg_load.specs.Rankings.{IsEarlier, IsNoLater, earlier, rank_in};
ghost use Rattle.bg_load.specs.Pauses.{is_large_from, is_paused, is_stuck};
ghost use Rattle.bg_load.specs.Stalls.{is_moving};
ghost use Rattle.bg_load.specs.Totals.{AreSums};

use crate::connection::Connection;
use crate::pauses::{is_large_from, is_moving, is_paused, is_stuck};
use crate::ranking::{Ranking, earlier};
use crate::totals::Totals;
use std::alloc::{AllocError, Global};
use std::marker::Model;

/// Places of connections. The index of a place is its key. Contracts see the list of the places.
#[derive(Drop)]
pub(crate) struct LoadTable {
    places: Vec<Option<Connection>>,
    totals: Totals,
}

impl Model for LoadTable {
    ghost use Rattle.std.specs.Prelude.{◌≤◌, List, Option, length};
    ghost use Rattle.bg_load.specs.declared.connection.Connection.{Connection};

    ghost Value = { List (Option Connection) };

    ghost use Rattle.bg_load.specs.Totals.{AreSums};

    ghost view = { λ t. t.places.items };

    ghost invariant = { λ t. AreSums t.totals t.places.items × (length t.places.items ≤ 1048576) };
}

impl LoadTable {
    /// No places.
    pub(crate) fn new(alloc: Global) -> LoadTable
        ensures { result ≡ [] }
    {
        LoadTable {
            places: Vec::new(alloc),
            totals: Totals::NONE,
        }
    }

    /// What the connections come to.
    pub(crate) fn totals(&self) -> Totals
        ensures { AreSums result self.now }
    {
        self.totals
    }

    /// The connection of a key.
    pub(crate) fn get(&self, key: usize) -> Option<Connection>
        ensures { result ≡ slice_index_or self.now key None }
    {
        match self.places.get(key) {
            Some(place) => *place,
            None => None,
        }
    }

    /// Adds free places until there is one for this key. The only error is an allocation failure.
    pub(crate) fn grow(&mut self, key: usize) -> Result<(), AllocError>
        requires { key < 1048576 }
        ensures grown { OnOk result (self.new ≡ grown self.old key) }
        ensures kept { OnErr result (self.new ≡ self.old) }
    {
        if key < self.places.len() {
            return Ok(());
        }
        self.places.resize(key + 1, None)
    }

    /// Puts this into the place of a key. Nothing changes if there is no such place.
    pub(crate) fn set(&mut self, key: usize, place: Option<Connection>)
        ensures { self.new ≡ slice_set self.old key place }
    {
        if key >= self.places.len() {
            return;
        }
        let before = Totals::of_place(self.places[key]);
        self.totals = self.totals.replaced(before, Totals::of_place(place));
        self.places[key] = place;
    }

    /// The key of the first connection whose request is paused, or goes on, otherwise than it should: all are to be
    /// paused that are large and whose number is at least this one. `None` if there is none.
    pub(crate) fn first_unlike(&self, least: u64) -> Option<usize>
        ensures unlike { IfSome result (λ key. ¬ (is_paused (slice_index_or self.now key None)
            ≡ is_large_from least (slice_index_or self.now key None))) }
        ensures first { IfSome result (λ key. (other : ℕ) → other < key
            → is_paused (slice_index_or self.now other None) ≡ is_large_from least (slice_index_or self.now other None)) }
        ensures none { IfNone result (EachIndex self.now (λ other.
            is_paused (slice_index_or self.now other None) ≡ is_large_from least (slice_index_or self.now other None))) }
    {
        for (key, place) in self.places.iter().enumerate() {
            if is_paused(*place) != is_large_from(*place, least) {
                return Some(key);
            }
        }
        None
    }

    /// The key of the first connection from this one on whose request is large, and slower than its pace; `None` if there
    /// is none.
    pub(crate) fn stuck_from(&self, from: usize, now: u64) -> Option<usize>
        ensures from { IfSome result (λ key. from ≤ key) }
        ensures stuck { IfSome result (λ key. is_stuck now (slice_index_or self.now key None) ≡ true) }
        ensures first { IfSome result (λ key. (other : ℕ) → from ≤ other → other < key
            → is_stuck now (slice_index_or self.now other None) ≡ false) }
        ensures none { IfNone result ((other : ℕ) → from ≤ other → other < length self.now
            → is_stuck now (slice_index_or self.now other None) ≡ false) }
    {
        for key in from..self.places.len() {
            if is_stuck(self.places[key], now) {
                return Some(key);
            }
        }
        None
    }

    /// Whether the request of a connection is large, goes on, and has made progress lately.
    pub(crate) fn has_moving(&self, now: u64) -> bool
        ensures none { result ≡ false → EachIndex self.now (λ key.
            is_moving now (slice_index_or self.now key None) ≡ false) }
        ensures some { result ≡ true → ¬ (EachIndex self.now (λ key.
            is_moving now (slice_index_or self.now key None) ≡ false)) }
    {
        for place in self.places.iter() {
            if is_moving(*place, now) {
                return true;
            }
        }
        false
    }

    /// The key and the rank of the first connection in a ranking: that of the least rank, and of those with the same rank the
    /// first by its key. `None` if none has a rank.
    pub(crate) fn first_in(&self, ranking: Ranking) -> Option<(usize, u64)>
        ensures rank { IfSome result (λ first. rank_in ranking (slice_index_or self.now first.0 None) ≡ Some first.1) }
        ensures least { IfSome result (λ first. EachIndex self.now (λ other.
            IsNoLater (Some first.1) (rank_in ranking (slice_index_or self.now other None)))) }
        ensures first { IfSome result (λ first. (other : ℕ) → other < first.0
            → IsEarlier (Some first.1) (rank_in ranking (slice_index_or self.now other None))) }
        ensures none { IfNone result (EachIndex self.now (λ other.
            rank_in ranking (slice_index_or self.now other None) ≡ None)) }
    {
        let mut first: Option<(usize, u64)> = None;
        for (key, place) in self.places.iter().enumerate() {
            first = earlier(first, key, ranking.rank_of(*place));
        }
        first
    }
}
