//! The calls of `bg_history`.
ghost use Rattle.std.specs.Prelude.{◌≡◌};

use crate::asking::{Subject, change, made, show};
use crate::stop::Stop;
use bg_history::{Entry, History};
use std::alloc::Global;
use std::fmt;

/// A history for two seats. Its display shows everything that it answers about itself.
#[derive(Drop)]
struct Entries {
    history: History,
    ghost two_seats: { history.opening.seats ≡ 2 },
}

impl Entries {
    fn new(alloc: Global) -> Result<Entries, Stop> {
        Ok(Entries {
            history: History::new(alloc, 2, "v1", &[9001, 9002])?,
        })
    }

    /// Reserves two places, and fills one.
    fn add(&mut self, moment: u64) -> Result<(), Stop> {
        self.history.reserve(2)?;
        self.history.push_reserved(Entry::Tick(moment));
        Ok(())
    }
}

impl fmt::Display for Entries {
    fn fmt<W: fmt::Write>(&self, f: &mut fmt::Formatter<W>) -> fmt::Result {
        let history = &self.history;
        writeln!(
            f,
            "len {} closed {} {}",
            history.len(),
            history.closed(0),
            history.closed(1)
        )?;
        for place in 0..history.len() {
            writeln!(f, "{:?}", history.get(place))?;
        }
        Ok(())
    }
}

impl Subject for Entries {
    /// The moment of the entry that is added.
    type Call = u64;

    fn make(&mut self, moment: &u64) -> Result<(), Stop> {
        self.add(*moment)
    }
}

pub fn make_calls<R: AllocGlobal + Print + Eprint>(rt: &R) -> Result<(), Stop> {
    let mut entries = make_entries(rt)?;
    add_entries(rt, &mut entries)
}

fn make_entries<R: AllocGlobal + Print + Eprint>(rt: &R) -> Result<Entries, Stop> {
    made(rt, "History::new", || Entries::new(rt.alloc()))
}

fn add_entries<R: Print + Eprint>(rt: &R, entries: &mut Entries) -> Result<(), Stop> {
    change(rt, "History::reserve", entries, &[1, 2, 3, 4, 5, 6, 7, 8])?;
    show(rt, entries)
}
