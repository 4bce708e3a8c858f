//! The loads of the connections of an event loop.
ghost use Rattle.std.specs.Prelude.{◌≡◌, ◌<◌, [], IfErr, OnErr, OnOk, Some, false, slice_set};
ghost use Rattle.bg_load.specs.Changes.{MayAccept, Refuses, accepted, left, numbered, observed_at};
ghost use Rattle.bg_load.specs.Pauses.{is_paused};
ghost use Rattle.bg_load.specs.Registers.{at};
ghost use Rattle.bg_load.specs.Totals.{AreSums, no_totals};

mod of_port;
mod pausing;
mod room;
mod stalls;

use crate::accept_fault::AcceptFault;
use crate::activity::Activity;
use crate::connection::Connection;
use crate::load::Load;
use crate::load_table::LoadTable;
use crate::pauses::is_paused;
use crate::settings::LoadSettings;
use crate::totals::Totals;
use std::alloc::Global;
use std::marker::Model;

/// The greatest number of places.
const MOST_PLACES: usize = 1 << 20;

/// The loads of the connections of an event loop. There are no sockets here: the caller reports what each connection does, and
/// asks which of them are paused, and which are to be given up. The bounds of the settings are those of the port: the caller
/// also reports what the connections of its other loops come to. One that is to be given up is named again until it has left,
/// or does something else. A connection has a key of the caller's, below 2 to the power of 20, until it leaves. Moments are
/// milliseconds from the start of the loop.
#[derive(Drop)]
pub struct Loads {
    table: LoadTable,
    /// The number of the next request.
    next: u64,
    settings: LoadSettings,
    /// What the connections of the other loops of the port come to.
    others: Totals,
    /// Whether large requests are paused.
    is_pausing: bool,
}

impl Model for Loads {
    ghost use Rattle.bg_load.specs.Registers.{Holds, Register};

    ghost Value = { Register };

    ghost view = { λ l. record {
      places = l.table;
      next = l.next;
      settings = l.settings;
      others = l.others;
      is_pausing = l.is_pausing;
    } };

    ghost invariant = { λ l. Holds l.table l.next };
}

impl Loads {
    /// No connections, and no places yet. The other loops have no connections either.
    pub fn new(alloc: Global, settings: LoadSettings) -> Loads
        ensures { result ≡ record { places = []; next = 0; settings = settings; others = no_totals; is_pausing = false } }
    {
        Loads {
            table: LoadTable::new(alloc),
            next: 0,
            settings,
            others: Totals::NONE,
            is_pausing: false,
        }
    }

    /// Notes that a connection was accepted, of which no byte came, and gives its request the next number. The table grows
    /// until it has a place for the key. On an error nothing changes, and the error is the first of these that applies: the key is
    /// 2 to the power of 20 or more; another connection has it; no number is left; an allocation failed.
    pub fn accept(&mut self, key: usize, now: u64) -> Result<(), AcceptFault>
        ensures may { OnOk result (MayAccept self.old key) }
        ensures accepted { OnOk result (self.new ≡ accepted self.old key now) }
        ensures why { IfErr result (λ fault. Refuses self.old key fault) }
        ensures kept { OnErr result (self.new ≡ self.old) }
    {
        if key >= MOST_PLACES {
            return Err(AcceptFault::KeyTooGreat);
        }
        if self.table.get(key).is_some() {
            return Err(AcceptFault::KeyInUse);
        }
        if self.next == u64::MAX {
            return Err(AcceptFault::NoNumber);
        }
        let Ok(()) = self.table.grow(key) else {
            return Err(AcceptFault::OutOfMemory);
        };
        self.begin(key, Load::begun(Activity::Arriving(0), now));
        Ok(())
    }

    /// Notes what a connection does now. If it goes on with what it did, its progress is noted by its pace, and a pause
    /// stays. If it does something else, or moved fewer bytes than before, it begins anew: nothing is paused, and its pace
    /// is measured from now on. A request that begins gets the next number, if one is left; otherwise it keeps that of the
    /// one before. Nothing changes if no connection has the key.
    pub fn observe(&mut self, key: usize, activity: Activity, now: u64)
        ensures { self.new ≡ observed_at self.old key activity now }
    {
        let Some(connection) = self.table.get(key) else {
            return;
        };
        let load = connection.load.observed(activity, now);
        if connection.load.begins(activity) && self.next < u64::MAX {
            self.begin(key, load);
        } else {
            self.set_load(key, connection, load);
        }
    }

    /// Puts a request that begins into the place of a key, with the next number.
    fn begin(&mut self, key: usize, load: Load)
        requires { self.old.next < u64.MAX }
        ensures { self.new ≡ numbered self.old key load }
    {
        let number = self.next;
        self.table.set(key, Some(Connection { number, load }));
        self.next = number + 1;
    }

    /// Gives another load to the connection of a key.
    fn set_load(&mut self, key: usize, connection: Connection, load: Load)
        requires { at self.old.places key ≡ Some connection }
        ensures { self.new ≡ record self.old {
          places = slice_set self.old.places key (Some (record connection { load = load }));
        } }
    {
        self.table.set(key, Some(connection.with(load)));
    }

    /// Notes that a connection has left. Nothing changes if no connection has the key.
    pub fn leave(&mut self, key: usize)
        ensures { self.new ≡ left self.old key }
    {
        self.table.set(key, None);
    }

    /// Notes what the connections of the other loops of the port come to. Until the next call it is added to what those of this
    /// loop come to, wherever a bound of the settings is looked at.
    pub fn note_others(&mut self, others: Totals)
        ensures { self.new ≡ record self.old { others = others } }
    {
        self.others = others;
    }

    /// What the connections of this loop come to: the sums of what each of them adds.
    pub fn totals(&self) -> Totals
        ensures { AreSums result self.now.places }
    {
        self.table.totals()
    }

    /// Whether the request of a connection is paused. No byte of it is to be read then, also if its client has ended its
    /// input. False if no connection has the key.
    pub fn is_paused(&self, key: usize) -> bool
        ensures { result ≡ is_paused (at self.now.places key) }
    {
        is_paused(self.table.get(key))
    }
}
