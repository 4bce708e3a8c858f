//! The revisions that exist.
ghost use Rattle.std.specs.Prelude.{◌≡◌, ◌<◌, ◌≤◌, ◌+◌, ◌^◌, true, [], ◌∷◌, ◌++◌, ◌==◌, not, length, map, filter, slice_get, IsNone, IsSome, IsErr, IfSome, IfOk, IfErr, OnOk, OnErr};
ghost use Rattle.std.specs.Option.{option_copied, IsSomeAnd};
ghost use Rattle.bg_revisions.specs.Rosters.{numbered, named, is_well_formed, well_formed, template_of, refused_by, resized, reported, report_of, IsRoster};

use crate::name::Name;
use crate::ports::Ports;
use crate::replica_ports::are_replica_ports;
use crate::revision::Revision;
use crate::revision_fault::RevisionFault;
use bg_strategy::is_dns_label;
use std::alloc::{AllocError, Global};
use std::marker::Model;

/// The most revisions that exist at one time.
pub const MOST_REVISIONS: usize = 64;

/// The revisions that exist, in ascending order of their numbers, and the greatest number ever given.
pub struct Roster {
    alloc: Global,
    replicas: u32,
    last: u64,
    revisions: Vec<Revision>,
}

impl Drop for Roster {
    /// Drops the fields by one call, so that the proofs of what owns a value are short (CONTRIBUTING.md, "What a check costs").
    fn drop(self) {
        let Roster {
            alloc: _,
            replicas: _,
            last: _,
            revisions: _,
        } = self;
    }
}

impl Model for Roster {
    ghost use Rattle.bg_revisions.specs.Rosters.{Listing, IsRoster};

    ghost Value = { Listing };

    ghost view = { λ r. record {
      replicas = r.replicas;
      revisions = r.revisions.items;
      last = r.last;
    } };

    ghost invariant = { λ r. IsRoster (record {
      replicas = r.replicas;
      revisions = r.revisions.items;
      last = r.last;
    }) };
}

impl Roster {
    /// A roster with no revision, for revisions of `replicas` endpoints at full size. The only error is an
    /// allocation failure.
    pub fn new(alloc: Global, replicas: u32) -> Result<Roster, AllocError>
        ensures { IfOk result (λ r. r ≡ record { replicas = replicas; revisions = []; last = 0 }) }
    {
        Ok(Roster {
            alloc,
            replicas,
            last: 0,
            revisions: Vec::with_capacity(alloc, MOST_REVISIONS)?,
        })
    }

    /// Checks the form of a revision's name and ports. The error is `BadName` if the name is not a DNS label;
    /// else `BadPorts` if the ports are not distinct numbers from 1, one for each replica.
    pub fn fits(&self, name: &str, ports: &[u16]) -> Result<(), RevisionFault>
        ensures { result ≡ well_formed self.now.replicas name.now ports.now }
    {
        if !is_dns_label(name) {
            return Err(RevisionFault::BadName);
        }
        if !are_replica_ports(self.replicas, ports) {
            return Err(RevisionFault::BadPorts);
        }
        Ok(())
    }

    /// The number of the revision with this name and these ports; `None` if no revision has the name. The error
    /// is `SameTemplate` if the revision numbered `newest` has both; else `PortsDiffer` if the revision of this
    /// name has other ports or has them in another order.
    pub fn find_template(
        &self,
        newest: u64,
        name: &str,
        ports: &[u16],
    ) -> Result<Option<u64>, RevisionFault>
        ensures { result ≡ template_of newest name.now ports.now self.now.revisions }
    {
        if let Some(revision) = self.find_number(newest) {
            if revision.name.get() == name && revision.ports.get() == ports {
                return Err(RevisionFault::SameTemplate);
            }
        }
        match self.find_name(name) {
            None => Ok(None),
            Some(revision) if revision.ports.get() == ports => Ok(Some(revision.number)),
            Some(_) => Err(RevisionFault::PortsDiffer),
        }
    }

    /// Adds a revision that wants `desired` endpoints and has none available. Gives its number, which is one above
    /// the greatest number ever given. The error is `TooManyRevisions` if 64 revisions exist; else `OutOfMemory` if an
    /// allocation fails. An error changes nothing.
    pub fn add(&mut self, name: &str, ports: &[u16], desired: u32) -> Result<u64, RevisionFault>
        requires fits { is_well_formed self.old.replicas name.now ports.now ≡ true }
        requires is_new { IsNone (named name.now self.old.revisions) }
        requires numbers { self.old.last < 2 ^ 53 }
        ensures number { IfOk result (λ n. n ≡ self.old.last + 1) }
        ensures added { IfOk result (λ n. self.new ≡ record self.old {
          revisions = self.old.revisions ++ record {
            number = n;
            name = name.now;
            ports = ports.now;
            desired = desired;
            available = 0;
          } ∷ [];
          last = n;
        }) }
        ensures full { 64 ≤ length self.old.revisions → IsErr result }
        ensures fault { IfErr result (λ e. e ≡ refused_by self.old.revisions) }
        ensures unchanged { OnErr result (self.new ≡ self.old) }
    {
        if self.revisions.len() >= MOST_REVISIONS {
            return Err(RevisionFault::TooManyRevisions);
        }
        let name = Name::new(self.alloc, name)?;
        let ports = Ports::new(self.alloc, ports)?;
        let number = self.last + 1;
        self.revisions.push(Revision {
            number,
            name,
            ports,
            desired,
            available: 0,
        })?;
        self.last = number;
        Ok(number)
    }

    /// The greatest number ever given; 0 before the first.
    pub fn last(&self) -> u64
        ensures { result ≡ self.now.last }
    {
        self.last
    }

    /// The revision of this name.
    pub fn find_name(&self, name: &str) -> Option<&Revision>
        ensures { option_copied result ≡ named name.now self.now.revisions }
    {
        self.revisions
            .iter()
            .find(|revision| revision.name.get() == name)
    }

    /// The revision of this number.
    pub fn find_number(&self, number: u64) -> Option<&Revision>
        ensures { option_copied result ≡ numbered number self.now.revisions }
    {
        let searched = self
            .revisions
            .binary_search_by_key(&number, |revision| revision.number);
        match searched {
            Ok(place) => Some(&self.revisions[place]),
            Err(_) => None,
        }
    }

    /// How many revisions exist, at most 64.
    pub fn count(&self) -> usize
        ensures count { result ≡ length self.now.revisions }
        ensures every_roster { IsRoster self.now }
    {
        self.revisions.len()
    }

    /// The revision at a place, in ascending order of the numbers; the first place is 0.
    pub fn at(&self, place: usize) -> Option<&Revision>
        ensures { option_copied result ≡ slice_get self.now.revisions place }
    {
        self.revisions.get(place)
    }

    /// All revisions, in ascending order of their numbers.
    pub fn as_slice(&self) -> &[Revision]
        ensures { result.now ≡ self.now.revisions }
    {
        &self.revisions
    }

    /// Sets how many endpoints a revision wants. If `desired` is 0, sets its available endpoints to 0, too.
    pub fn set_desired(&mut self, number: u64, desired: u32)
        requires { IsSome (numbered number self.old.revisions) }
        ensures { self.new ≡ record self.old {
          revisions = map (resized number desired) self.old.revisions;
        } }
    {
        for revision in self.revisions.iter_mut() {
            resize(revision, number, desired);
        }
    }

    /// Sets how many endpoints of a revision are available, as reported. The error is `NoSuchRevision` if no
    /// revision has this number; else `MoreThanDesired` if the revision wants fewer. An error changes nothing.
    pub fn set_available(&mut self, number: u64, available: u32) -> Result<(), RevisionFault>
        ensures result { result ≡ report_of available (numbered number self.old.revisions) }
        ensures reported { OnOk result
            (self.new ≡ record self.old {
              revisions = map (reported number available) self.old.revisions;
            }) }
        ensures unchanged { OnErr result (self.new ≡ self.old) }
    {
        match self.find_number(number) {
            None => return Err(RevisionFault::NoSuchRevision),
            Some(revision) if revision.desired < available => {
                return Err(RevisionFault::MoreThanDesired);
            }
            Some(_) => {}
        }
        for revision in self.revisions.iter_mut() {
            report(revision, number, available);
        }
        Ok(())
    }

    /// Removes a revision that wants no endpoint. No later revision gets its number.
    pub fn remove(&mut self, number: u64)
        requires { IsSomeAnd (numbered number self.old.revisions) (λ v. v.desired ≡ 0) }
        ensures { self.new ≡ record self.old
            { revisions = filter (λ v. not (v.number == number)) self.old.revisions } }
    {
        self.revisions.retain(|revision| revision.number != number);
    }
}

/// Sets how many endpoints the revision wants, if it has this number.
fn resize(revision: &mut Revision, number: u64, desired: u32)
    ensures { revision.new ≡ resized number desired revision.old }
{
    if revision.number == number {
        revision.desired = desired;
        if desired == 0 {
            revision.available = 0;
        }
    }
}

/// Sets how many endpoints of the revision are available, if it has this number.
fn report(revision: &mut Revision, number: u64, available: u32)
    ensures { revision.new ≡ reported number available revision.old }
{
    if revision.number == number {
        revision.available = available;
    }
}
