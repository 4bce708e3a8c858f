//! The entries that the facts of a past allow.
ghost use Rattle.std.specs.Prelude.{◌≡◌, ◌&&◌, List, length, slice_index, nat_le};
ghost use Rattle.std.specs.Option.{option_copied};
ghost use Rattle.bg_strategy.specs.declared.strategy.Strategy.{Strategy};
ghost use Rattle.bg_revisions.specs.Rosters.{has_template};
ghost use Rattle.bg_history.specs.declared.entry.Entry.{Entry};
ghost use Rattle.bg_history.specs.Kept.{Opening};
ghost use Rattle.bg_history.specs.AttemptBounds.{newest_of};
ghost use Rattle.bg_history.specs.Sizes.{desired, available};
ghost use Rattle.bg_history.specs.Requests.{held_by};
ghost use Rattle.bg_history.specs.Deadlines.{exists_in};
ghost use Rattle.bg_history.specs.Templates.{template, namesake};
ghost use Rattle.bg_history.specs.Allowed.{is_allowed, may_deploy, is_template, fits_namesake, holds, has_value};
ghost use Rattle.bg_history_laws.specs.Reachable.{Reachable};
ghost use Rattle.bg_audit.specs.Scans.{fits_named, wants_in, has_port_in, is_held_in, enters_in};

use crate::facts::Facts;
use crate::requests;
use crate::requests::AuditedRequest;
use crate::revisions::{with_name, with_number};
use bg_history::{Entry, Outcome};
use bg_history_laws as laws;
use bg_revisions::{Name, Ports, Revision, are_replica_ports};
use bg_strategy::{Strategy, is_dns_label};

/// The greatest moment of a tick.
const LATEST_MOMENT: u64 = 1 << 53;

/// The greatest number of revisions that exist at one time.
const MOST_REVISIONS: usize = 64;

impl Facts {
    ghost use Rattle.bg_audit.specs.Known.{Knows};

    /// Whether the entry is allowed, for a book with `seats` seats.
    pub fn allows(&self, strategy: &Strategy, seats: u64, entry: &Entry) -> bool
        ensures { (o : Opening) (past : List Entry) → Knows strategy.now o past self.now
            → Reachable strategy.now o past → seats ≡ o.seats
            → result ≡ is_allowed strategy.now o entry.now past }
    {
        laws::finds();
        match entry {
            Entry::Tick(moment) => self.state.moment <= *moment && *moment <= LATEST_MOMENT,
            Entry::Deploy {
                revision,
                name,
                ports,
            } => self.may_deploy(strategy, *revision, name, ports),
            Entry::Available { revision, size } => self.may_report(*revision, *size),
            Entry::Verdict { analysis, .. } => self.state.awaits(strategy, *analysis),
            Entry::Promote => self.state.is_paused(strategy),
            Entry::PromoteFull => { self.state.running && !self.state.attempt.promote_full_given }
            Entry::Abort => self.state.running,
            Entry::Retry => self.state.halted,
            Entry::Enter {
                seat,
                service,
                number,
                revision,
                port,
            } => {
                let selected = self.state.selection(strategy, *service);
                let request = AuditedRequest {
                    seat: *seat,
                    number: *number,
                    revision: *revision,
                };
                self.may_enter(seats, selected, request, *port)
            }
            Entry::Leave {
                seat,
                number,
                revision,
            } => self.holds(*seat, *number, *revision),
            Entry::Outcome(outcome) => self.may_follow(strategy, *outcome),
        }
    }

    /// Whether the template may be deployed as a revision of this number.
    fn may_deploy(&self, strategy: &Strategy, number: u64, name: &Name, ports: &Ports) -> bool
        ensures { (o : Opening) (past : List Entry) → Knows strategy.now o past self.now
            → Reachable strategy.now o past
            → result ≡ may_deploy strategy.now o number name.now ports.now past }
    {
        is_dns_label(name.get())
            && are_replica_ports(strategy.replicas, ports.get())
            && !self.is_newest(name, ports)
            && self.fits_namesake(number, name, ports)
    }

    /// Whether the newest revision has this name and these ports.
    fn is_newest(&self, name: &Name, ports: &Ports) -> bool
        ensures { (s : Strategy) (o : Opening) (past : List Entry) → Knows s o past self.now
            → Reachable s o past
            → result ≡ is_template name.now ports.now (template o (newest_of past) past) }
    {
        laws::finds();
        has_template(with_number(&self.revisions, self.state.newest), name, ports)
    }

    /// Whether the revision of this name has this number and these ports; or no revision has the name, the number is
    /// the next one, and there is room.
    fn fits_namesake(&self, number: u64, name: &Name, ports: &Ports) -> bool
        ensures { (s : Strategy) (o : Opening) (past : List Entry) → Knows s o past self.now
            → Reachable s o past
            → result ≡ fits_namesake o (namesake o name.now past) number ports.now past }
    {
        laws::finds();
        laws::names();
        self.fits(with_name(&self.revisions, name.get()), number, ports)
    }

    /// Whether the revision exists and wants at least `size` endpoints.
    pub fn may_report(&self, number: u64, size: u32) -> bool
        ensures { (s : Strategy) (o : Opening) (past : List Entry) → Knows s o past self.now
            → result ≡ (exists_in number past && nat_le size (desired s number past)) }
    {
        laws::finds();
        wants(with_number(&self.revisions, number), size)
    }

    /// Whether the seat holds this request.
    fn holds(&self, seat: u32, number: u64, revision: u64) -> bool
        ensures { (s : Strategy) (o : Opening) (past : List Entry) → Knows s o past self.now
            → result ≡ holds number revision (held_by seat past) }
    {
        is_held(requests::held_by(&self.requests, seat), number, revision)
    }

    /// Whether a template with these ports may be deployed as this number; `named` is the revision of its name.
    fn fits(&self, named: Option<&Revision>, number: u64, ports: &Ports) -> bool
        ensures { result ≡ fits_named (option_copied named.entry) number ports.now
            self.now.state.last (length self.now.revisions.items) }
    {
        match named {
            Some(revision) => revision.number == number && revision.ports.get() == ports.get(),
            None => {
                number > self.state.last
                    && number - self.state.last == 1
                    && self.revisions.len() < MOST_REVISIONS
            }
        }
    }

    /// Whether the request may enter with this port; `selected` is the revision that the service selects.
    fn may_enter(
        &self,
        seats: u64,
        selected: Option<u64>,
        request: AuditedRequest,
        port: u16,
    ) -> bool
        ensures { result ≡ enters_in self.now seats selected
            request.seat request.number request.revision port }
    {
        let AuditedRequest {
            seat,
            number,
            revision,
        } = request;
        (seat as u64) < seats
            && requests::held_by(&self.requests, seat).is_none()
            && is_value(selected, revision)
            && has_port(with_number(&self.revisions, revision), number, port)
            && requests::is_above(number, self.greatest)
    }

    /// Whether the outcome is allowed.
    fn may_follow(&self, strategy: &Strategy, outcome: Outcome) -> bool
        ensures { (o : Opening) (past : List Entry) → Knows strategy.now o past self.now
            → Reachable strategy.now o past
            → result ≡ is_allowed strategy.now o (Entry.Outcome outcome) past }
    {
        laws::finds();
        let newest = self.state.newest;
        match outcome {
            Outcome::Ready(number) => {
                number == newest && self.state.may_be_ready(strategy, self.newest_available())
            }
            Outcome::Resumed(number) => number == newest && self.state.may_resume(strategy),
            Outcome::Switched(number) => {
                number == newest && self.state.may_switch(strategy, self.newest_available())
            }
            Outcome::Promoted(number) => number == newest && self.state.may_promote(strategy),
            Outcome::ScaledDown(number) => self.may_scale_down(strategy, number),
            Outcome::Removed(number) => self.may_remove(strategy, number),
        }
    }

    /// The number of available endpoints of the newest revision.
    pub fn newest_available(&self) -> u32
        ensures { (s : Strategy) (o : Opening) (past : List Entry) → Knows s o past self.now
            → Reachable s o past → result ≡ available (newest_of past) past }
    {
        laws::finds();
        match with_number(&self.revisions, self.state.newest) {
            Some(revision) => revision.available,
            None => 0,
        }
    }
}

/// Whether there is a revision, with this name and these ports.
fn has_template(revision: Option<&Revision>, name: &Name, ports: &Ports) -> bool
    ensures { result ≡ has_template name.now ports.now (option_copied revision.entry) }
{
    match revision {
        Some(revision) => {
            revision.name.get() == name.get() && revision.ports.get() == ports.get()
        }
        None => false,
    }
}

/// Whether there is a revision, and it wants at least `size` endpoints.
fn wants(revision: Option<&Revision>, size: u32) -> bool
    ensures { result ≡ wants_in size (option_copied revision.entry) }
{
    match revision {
        Some(revision) => size <= revision.desired,
        None => false,
    }
}

/// Whether there is a revision, it has an endpoint available, and it gives this port to the request of that
/// number.
fn has_port(revision: Option<&Revision>, number: u64, port: u16) -> bool
    ensures { result ≡ has_port_in number port (option_copied revision.entry) }
{
    match revision {
        Some(revision) => {
            revision.available >= 1
                && port_at(revision.ports.get(), number % revision.available as u64) == port
        }
        None => false,
    }
}

/// The port at a place; 0 if there is none.
fn port_at(ports: &[u16], place: u64) -> u16
    ensures { result ≡ slice_index ports.now place }
{
    match ports.get(place as usize) {
        Some(port) => *port,
        None => 0,
    }
}

/// Whether there is a request, with this number and revision.
fn is_held(request: Option<&AuditedRequest>, number: u64, revision: u64) -> bool
    ensures { result ≡ is_held_in number revision (option_copied request.entry) }
{
    match request {
        Some(request) => request.number == number && request.revision == revision,
        None => false,
    }
}

/// Whether there is a number, and it is this one.
fn is_value(found: Option<u64>, number: u64) -> bool
    ensures { result ≡ has_value number found }
{
    match found {
        Some(found) => found == number,
        None => false,
    }
}
