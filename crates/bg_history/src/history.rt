//! The history: the list of entries.
ghost use Rattle.std.specs.Prelude.{◌≡◌, ◌+◌, ◌^◌, ◌≤◌, ◌∷◌, [], IfOk, IsTrue, OnOk, OnErr, slice_get, slice_index, length, reverse, option_map, replicate};
ghost use Rattle.bg_history.specs.Compacted.{compacted, closed_after};
ghost use Rattle.bg_history.specs.Requests.{given};
ghost use Rattle.bg_history.specs.Sound.{is_sound};

use crate::compacting::compact;
use crate::entry::Entry;
use bg_revisions::{Name, Ports};
use std::alloc::{AllocError, Global};
use std::marker::Model;

/// The entries of a book since its opening.
///
/// Contracts see the past newest first, the template of revision 1 and the number of seats, for each seat the number
/// of its closed requests whose entries were dropped, and `spare`: the number of places reserved for more entries.
pub struct History {
    name: Name,
    ports: Ports,
    closed: Vec<u64>,
    entries: Vec<Entry>,
    spare: usize,
    /// For each seat, the place of an Enter, where compaction looks first. Its content means nothing between calls.
    places: Vec<usize>,
}

impl Drop for History {
    /// Drops the fields by one call, so that the proofs of what owns a value are short (CONTRIBUTING.md, "What a check costs").
    fn drop(self) {
        let History {
            name: _,
            ports: _,
            closed: _,
            entries: _,
            spare: _,
            places: _,
        } = self;
    }
}

impl Model for History {
    ghost use Rattle.std.specs.Prelude.{◌+◌, ◌≤◌, reverse, vec_len, vec_capacity};
    ghost use Rattle.bg_history.specs.Kept.{Kept};

    ghost Value = { Kept };

    ghost view = { λ h. record {
      opening = record {
        seats = vec_len h.closed;
        template = record { name = h.name; ports = h.ports };
      };
      closed = h.closed.items;
      past = reverse h.entries.items;
      spare = h.spare;
    } };

    ghost invariant = { λ h. vec_len h.entries + h.spare ≤ vec_capacity h.entries };
}

impl History {
    /// A history without entries, for `seats` seats. Revision 1 has this name and these ports. The only error is an
    /// allocation failure.
    pub fn new(alloc: Global, seats: u32, name: &str, ports: &[u16]) -> Result<History, AllocError>
        ensures { IfOk result (λ h. h ≡ record {
          opening = record {
            seats = seats;
            template = record { name = name.now; ports = ports.now };
          };
          closed = replicate seats 0;
          past = [];
          spare = 0;
        }) }
    {
        let closed = vec![in alloc; 0u64; seats as usize]?;
        let places = vec![in alloc; 0usize; seats as usize]?;
        Ok(History {
            name: Name::new(alloc, name)?,
            ports: Ports::new(alloc, ports)?,
            closed,
            entries: Vec::new(alloc),
            spare: 0,
            places,
        })
    }

    /// Makes `spare` at least `n`. If this allocates, the capacity at least doubles. The only error is an allocation
    /// failure, and it changes nothing.
    pub fn reserve(&mut self, n: u32) -> Result<(), AllocError>
        ensures ok { OnOk result (n ≤ self.new.spare) }
        ensures spare { self.old.spare ≤ self.new.spare }
        ensures rest { record self.new { spare = self.old.spare } ≡ self.old }
        ensures err { OnErr result (self.new ≡ self.old) }
    {
        let n = n as usize;
        if n > self.spare {
            self.entries.reserve(n)?;
            self.spare = n;
        }
        Ok(())
    }

    /// Appends an entry in a reserved place. The call allocates nothing.
    pub fn push_reserved(&mut self, entry: Entry)
        requires { 1 ≤ self.old.spare }
        ensures entry { self.new ≡ record self.old {
          past = entry ∷ self.old.past;
          spare = self.new.spare;
        } }
        ensures spare { self.new.spare + 1 ≡ self.old.spare }
    {
        self.entries.push_reserved(entry);
        self.spare -= 1;
    }

    /// The number of seats.
    pub fn seats(&self) -> usize
        ensures seats { result ≡ self.now.opening.seats }
        ensures closed { length self.now.closed ≡ result }
    {
        self.closed.len()
    }

    /// The name of revision 1 at the opening.
    pub fn first_name(&self) -> &str
        ensures { result.now ≡ self.now.opening.template.name }
    {
        self.name.get()
    }

    /// The ports of revision 1 at the opening.
    pub fn first_ports(&self) -> &[u16]
        ensures { result.now ≡ self.now.opening.template.ports }
    {
        self.ports.get()
    }

    /// The number of entries.
    pub fn len(&self) -> u64
        ensures { result ≡ length self.now.past }
    {
        self.entries.len() as u64
    }

    /// The entry at a place; the oldest entry is at place 0. `None` past the newest entry.
    pub fn get(&self, place: u64) -> Option<&Entry>
        ensures { option_map (λ e. e.now) result ≡ slice_get (reverse self.now.past) place }
    {
        self.entries.get(place as usize)
    }

    /// The number of a seat's closed requests whose entries were dropped; 0 if there is no such seat.
    pub fn closed(&self, seat: u32) -> u64
        ensures { result ≡ slice_index self.now.closed seat }
    {
        self.closed.get(seat as usize).copied().unwrap_or(0)
    }

    /// Compacts the history: drops the entries of each closed request, counts the request for its seat, and drops each
    /// tick that another tick directly follows. Gives the number of dropped entries. The call allocates nothing.
    pub fn compact(&mut self) -> u64
        requires sound { IsTrue (is_sound self.old.opening.seats self.old.past) }
        requires given { given self.old.closed self.old.past ≤ 2 ^ 53 }
        ensures new { self.new ≡ record self.old {
          closed = closed_after self.old.past self.old.closed;
          past = compacted self.old.past;
        } }
        ensures dropped { result + length self.new.past ≡ length self.old.past }
    {
        compact(&mut self.entries, &mut self.closed, &mut self.places)
    }
}
