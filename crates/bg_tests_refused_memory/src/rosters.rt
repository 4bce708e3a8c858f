//! The calls of `bg_revisions`.

use crate::asking::{Subject, change, made, show};
use crate::stop::Stop;
use bg_revisions::{Name, Ports, Roster};
use std::alloc::Global;
use std::fmt;

/// The names of the revisions that are added.
const NAMES: [&str; 3] = ["v1", "v2", "v3"];

/// A roster. Its display shows everything that it answers.
#[derive(Drop)]
struct RosterSubject {
    roster: Roster,
}

impl RosterSubject {
    fn new(alloc: Global) -> Result<RosterSubject, Stop> {
        Ok(RosterSubject {
            roster: Roster::new(alloc, 2)?,
        })
    }

    /// Adds a revision whose name is new.
    fn add(&mut self, name: &str) -> Result<(), Stop> {
        let ports = [9001, 9002];
        self.roster.fits(name, &ports)?;
        if self.roster.find_name(name).is_some() || self.roster.last() >= 1 << 53 {
            return Err(Stop::OtherFault);
        }
        let _number = self.roster.add(name, &ports, 2)?;
        Ok(())
    }
}

impl fmt::Display for RosterSubject {
    fn fmt<W: fmt::Write>(&self, f: &mut fmt::Formatter<W>) -> fmt::Result {
        let roster = &self.roster;
        writeln!(f, "last {} count {}", roster.last(), roster.count())?;
        for place in 0..roster.count() {
            writeln!(f, "{:?}", roster.at(place))?;
        }
        write!(f, "{}", LookUps(roster))
    }
}

/// The revisions that a roster finds by name and by number.
#[derive(Drop)]
struct LookUps<'a>(&'a Roster);

impl fmt::Display for LookUps<'_> {
    fn fmt<W: fmt::Write>(&self, f: &mut fmt::Formatter<W>) -> fmt::Result {
        for name in &NAMES {
            writeln!(f, "{name} {:?}", self.0.find_name(name))?;
        }
        for number in 1..4 {
            writeln!(f, "{number} {:?}", self.0.find_number(number))?;
        }
        Ok(())
    }
}

impl Subject for RosterSubject {
    /// The name of the revision that is added.
    type Call = &'static str;

    fn make(&mut self, name: &&'static str) -> Result<(), Stop> {
        self.add(name)
    }
}

pub fn make_calls<R: AllocGlobal + Print + Eprint>(rt: &R) -> Result<(), Stop> {
    make_parts(rt)?;
    make_revisions(rt)
}

/// Makes the parts of a revision.
fn make_parts<R: AllocGlobal + Print + Eprint>(rt: &R) -> Result<(), Stop> {
    let name = make_name(rt)?;
    let ports = make_ports(rt)?;
    show_parts(rt, &name, &ports)
}

fn show_parts<R: Print>(rt: &R, name: &Name, ports: &Ports) -> Result<(), Stop> {
    println!(rt; "{name:?} {ports:?}")?;
    Ok(())
}

fn make_name<R: AllocGlobal + Print + Eprint>(rt: &R) -> Result<Name, Stop> {
    made(rt, "Name::new", || new_name(rt.alloc()))
}

fn new_name(alloc: Global) -> Result<Name, Stop> {
    Ok(Name::new(alloc, "v1")?)
}

fn make_ports<R: AllocGlobal + Print + Eprint>(rt: &R) -> Result<Ports, Stop> {
    made(rt, "Ports::new", || new_ports(rt.alloc()))
}

fn new_ports(alloc: Global) -> Result<Ports, Stop> {
    Ok(Ports::new(alloc, &[9001, 9002])?)
}

fn make_roster<R: AllocGlobal + Print + Eprint>(rt: &R) -> Result<RosterSubject, Stop> {
    made(rt, "Roster::new", || RosterSubject::new(rt.alloc()))
}

fn make_revisions<R: AllocGlobal + Print + Eprint>(rt: &R) -> Result<(), Stop> {
    let mut revisions = make_roster(rt)?;
    add_revisions(rt, &mut revisions)
}

fn add_revisions<R: Print + Eprint>(rt: &R, revisions: &mut RosterSubject) -> Result<(), Stop> {
    change(rt, "Roster::add", revisions, &NAMES)?;
    show(rt, revisions)
}
