//! Checking an event, and recording one that has no fault.
ghost use Rattle.std.specs.Prelude.{◌≡◌, ◌≤◌, ◌+◌, ◌*◌, List, length, MatchResult, IfOk, OnOk, nat_le, Some, None, ◌∷◌, true, map, max, unwrap_or, IsSome, IfSome, OnErr};
ghost use Rattle.bg_history.specs.Sizes.{existing, last_number, is_scaled};
ghost use Rattle.bg_history.specs.Templates.{namesake as namesake_of};
ghost use Rattle.bg_history.specs.AttemptBounds.{newest_of};
ghost use Rattle.bg_history.specs.Kept.{Opening};
ghost use Rattle.bg_history.specs.declared.entry.Entry.{Entry};
ghost use Rattle.bg_history_laws.specs.Answers.{template_answer};
ghost use Rattle.bg_history_laws.specs.Listed.{revisions_of};
ghost use Rattle.bg_rollout.specs.Refusals.{all_open, control_refusal, deploy_fault, event_fault, event_of, refuse};
ghost use Rattle.bg_rollout.specs.Judging.{entry_of, IsAccepted};
ghost use Rattle.bg_revisions.specs.Rosters.{numbered, resized};
ghost use Rattle.bg_history.specs.Allowed.{is_allowed};
ghost use Rattle.bg_promotion.specs.Represents.{CoreRepresents};
ghost use Rattle.bg_rollout.specs.Recording.{is_command, Recorded};
ghost use Rattle.bg_history.specs.declared.control.Control.TheVariants as control;
ghost use Rattle.bg_history.specs.declared.entry.Entry.TheVariants as entry;

use crate::accepted_event::AcceptedEvent;
use crate::control_fault::ControlFault;
use crate::limits::MOST_ENTRIES;
use crate::rollout::Rollout;
use bg_history::{Control, Entry};
use bg_history_laws as laws;
use bg_ledger::Names;
use bg_promotion::{Core, laws as promotion_laws};
use bg_revisions::{MOST_REVISIONS, Name, Ports, RevisionFault, Roster};
use bg_scaledown::laws as scaledown_laws;
use bg_strategy::Strategy;
use std::alloc::{AllocError, Global};

impl<N: Names> Rollout<N> {
    /// Finds the first fault of an event other than an allocation failure, or how to record the event if it has none.
    pub fn judge<'a>(&self, control: &'a Control) -> Result<AcceptedEvent<'a>, ControlFault>
        requires { length self.now.routing.past + 3 * all_open self.now.routing.past ≤ 1000000 }
        ensures judged { MatchResult result
            (λ _. control_refusal self.now.routing control.now ≡ None)
            (λ e. control_refusal self.now.routing control.now ≡ Some e) }
        ensures entry { IfOk result
            (λ a. entry_of self.now.routing a ≡ event_of self.now.routing control.now) }
        ensures accepted { IfOk result (λ a. IsAccepted self.now.routing a) }
        ensures room { OnOk result (let b = self.now.routing in
            length b.past + 141 + 3 * all_open b.past ≤ b.limits.entries) }
    {
        let accepted = self.judge_event(control)?;
        if self.history.len() + MOST_ENTRIES + self.places_kept() > self.limits.entries {
            return Err(ControlFault::HistoryFull);
        }
        Ok(accepted)
    }

    /// Finds the first fault of the event itself, or how to record it.
    fn judge_event<'a>(&self, control: &'a Control) -> Result<AcceptedEvent<'a>, ControlFault>
        ensures judged { MatchResult result
            (λ _. event_fault self.now.routing control.now ≡ None)
            (λ e. event_fault self.now.routing control.now ≡ Some e) }
        ensures entry { IfOk result
            (λ a. entry_of self.now.routing a ≡ event_of self.now.routing control.now) }
        ensures accepted { IfOk result (λ a. IsAccepted self.now.routing a) }
    {
        // A copy of the core takes the command, and its answer is the fault or the core after it.
        let mut core = self.core;
        match control {
            Control::Tick(moment) => {
                self.check_tick(*moment)?;
                Ok(AcceptedEvent::Tick(*moment))
            }
            Control::Deploy { name, ports } => {
                let namesake = self.check_deploy(name.get(), ports.get())?;
                Ok(AcceptedEvent::Deploy {
                    namesake,
                    name,
                    ports,
                })
            }
            Control::Available { revision, size } => {
                let (revision, size) = (*revision, *size);
                self.check_report(revision, size)?;
                Ok(AcceptedEvent::Available { revision, size })
            }
            Control::Verdict { analysis, result } => {
                let (analysis, result) = (*analysis, *result);
                core.verdict(analysis, result, self.moment)?;
                Ok(AcceptedEvent::Command(Entry::Verdict { analysis, result }, core))
            }
            Control::Promote => {
                core.promote()?;
                Ok(AcceptedEvent::Command(Entry::Promote, core))
            }
            Control::PromoteFull => {
                core.promote_full()?;
                Ok(AcceptedEvent::Command(Entry::PromoteFull, core))
            }
            Control::Abort => {
                core.abort()?;
                Ok(AcceptedEvent::Command(Entry::Abort, core))
            }
            Control::Retry => {
                core.retry()?;
                Ok(AcceptedEvent::Command(Entry::Retry, core))
            }
        }
    }

    /// Finds the fault of a moment.
    pub(super) fn check_tick(&self, moment: u64) -> Result<(), ControlFault>
        ensures { result ≡ refuse (event_fault self.now.routing (control.Tick moment)) }
    {
        if moment > LAST_MOMENT {
            return Err(ControlFault::MomentTooLarge);
        }
        if moment < self.moment {
            return Err(ControlFault::MomentBack);
        }
        Ok(())
    }

    /// Finds the fault of a template, or the revision that has its name.
    pub(super) fn check_deploy(
        &self,
        name: &str,
        ports: &[u16],
    ) -> Result<Option<u64>, ControlFault>
        ensures judged { MatchResult result
            (λ _. deploy_fault self.now.routing name.now ports.now ≡ None)
            (λ e. deploy_fault self.now.routing name.now ports.now ≡ Some e) }
        ensures namesake { let b = self.now.routing in
            IfOk result (λ r. r ≡ namesake_of b.opening name.now b.past) }
    {
        self.roster.fits(name, ports)?;
        let found = self.find_namesake(name, ports)?;
        if found.is_none() && self.has_all_revisions() {
            return Err(ControlFault::Revision(RevisionFault::TooManyRevisions));
        }
        Ok(found)
    }

    /// Finds the fault of a template among the existing revisions, or the revision that has its name.
    fn find_namesake(&self, name: &str, ports: &[u16]) -> Result<Option<u64>, RevisionFault>
        ensures answer { let b = self.now.routing in
            result ≡ template_answer b.opening (newest_of b.past) name.now ports.now b.past }
        ensures namesake { let b = self.now.routing in
            IfOk result (λ r. r ≡ namesake_of b.opening name.now b.past) }
    {
        laws::names();
        laws::reachable();
        let newest = self.core.selectors().newest;
        self.roster.find_template(newest, name, ports)
    }

    /// Whether the greatest number of revisions exist: 64.
    fn has_all_revisions(&self) -> bool
        ensures { result ≡ nat_le 64 (length (existing self.now.routing.past)) }
    {
        laws::finds();
        self.roster.count() >= MOST_REVISIONS
    }

    /// Finds the fault of a report of availability.
    pub(super) fn check_report(&self, revision: u64, size: u32) -> Result<(), ControlFault>
        ensures { result ≡ refuse (event_fault self.now.routing (control.Available revision size)) }
    {
        laws::finds();
        match self.roster.find_number(revision) {
            None => Err(ControlFault::Revision(RevisionFault::NoSuchRevision)),
            Some(found) if found.desired < size => {
                Err(ControlFault::Revision(RevisionFault::MoreThanDesired))
            }
            Some(_) => Ok(()),
        }
    }

    /// Records an event that has no fault. The only error is an allocation failure, and it changes nothing.
    pub fn take_in(&mut self, alloc: Global, accepted: AcceptedEvent) -> Result<(), AllocError>
        requires accepted { IsAccepted self.old.routing accepted }
        requires short { length self.old.routing.past ≤ 1000000 }
        requires spare { 1 ≤ self.old.spare }
        ensures ok { OnOk result
            (Recorded (entry_of self.old.routing accepted.entry) self.old self.new) }
        ensures err { OnErr result (self.new ≡ self.old) }
    {
        match accepted {
            AcceptedEvent::Tick(moment) => self.take_tick(moment),
            AcceptedEvent::Deploy {
                namesake,
                name,
                ports,
            } => {
                self.take_deploy(alloc, namesake, name.get(), ports.get())?;
            }
            AcceptedEvent::Available { revision, size } => self.take_report(revision, size),
            AcceptedEvent::Command(entry, core) => self.take_command(entry, core),
        }
        Ok(())
    }

    /// Records a moment that has no fault.
    fn take_tick(&mut self, moment: u64)
        requires allowed { let b = self.old.routing in
            is_allowed b.strategy b.opening (entry.Tick moment) b.past ≡ true }
        requires spare { 1 ≤ self.old.spare }
        ensures { Recorded (entry.Tick moment) self.old self.new }
    {
        promotion_laws::neutral(&self.core);
        self.moment = moment;
        self.history.push_reserved(Entry::Tick(moment));
    }

    /// Records a report of availability that has no fault.
    fn take_report(&mut self, revision: u64, size: u32)
        requires allowed { let b = self.old.routing in
            is_allowed b.strategy b.opening (entry.Available revision size) b.past ≡ true }
        requires spare { 1 ≤ self.old.spare }
        ensures { Recorded (entry.Available revision size) self.old self.new }
    {
        laws::finds();
        laws::reports();
        promotion_laws::neutral(&self.core);
        // The check found that the revision exists and wants at least `size` endpoints.
        let _accepted = self.roster.set_available(revision, size);
        self.history
            .push_reserved(Entry::Available { revision, size });
    }

    /// Records a promotion command; `core` is the core after it. After a retry the newest revision wants at least the
    /// size of a preview.
    fn take_command(&mut self, entry: Entry, core: Core)
        requires command { is_command entry ≡ true }
        requires allowed { let b = self.old.routing in
            is_allowed b.strategy b.opening entry b.past ≡ true }
        requires core { let b = self.old.routing in CoreRepresents b.strategy core (entry ∷ b.past) }
        requires spare { 1 ≤ self.old.spare }
        ensures { Recorded entry self.old self.new }
    {
        laws::finds();
        scaledown_laws::next_has_room();
        laws::reachable();
        let newest_is_scaled = self.newest_is_scaled();
        let selectors = self.core.selectors();
        self.deadlines
            .record(&entry, selectors, newest_is_scaled, self.moment);
        resize_newest(&mut self.roster, selectors.newest, &entry, &self.strategy);
        self.core = core;
        self.history.push_reserved(entry);
    }

    /// Records a deploy that has no fault: of the revision that has the name, or of a new one if none has. The only
    /// error is an allocation failure, and it changes nothing.
    fn take_deploy(
        &mut self,
        alloc: Global,
        namesake: Option<u64>,
        name: &str,
        ports: &[u16],
    ) -> Result<(), AllocError>
        requires found { let b = self.old.routing in namesake ≡ namesake_of b.opening name.now b.past }
        requires allowed { let b = self.old.routing in is_allowed b.strategy b.opening
            (entry.Deploy (unwrap_or namesake (last_number b.past + 1)) name.now ports.now) b.past
            ≡ true }
        requires short { length self.old.routing.past ≤ 1000000 }
        requires spare { 1 ≤ self.old.spare }
        ensures ok { OnOk result (Recorded
            (entry.Deploy (unwrap_or namesake (last_number self.old.routing.past + 1))
            name.now ports.now) self.old self.new) }
        ensures err { OnErr result (self.new ≡ self.old) }
    {
        let kept_name = Name::new(alloc, name)?;
        let kept_ports = Ports::new(alloc, ports)?;
        match namesake {
            Some(revision) => {
                self.take_known(revision, kept_name, kept_ports);
                Ok(())
            }
            None => self.take_new(kept_name, kept_ports),
        }
    }

    /// Records the deploy of a revision that exists. If it is the stable one, the rollout goes back to it; else it then
    /// wants at least the size of a preview.
    fn take_known(&mut self, revision: u64, name: Name, ports: Ports)
        requires known { let b = self.old.routing in
            namesake_of b.opening name b.past ≡ Some revision }
        requires allowed { let b = self.old.routing in
            is_allowed b.strategy b.opening (entry.Deploy revision name ports) b.past ≡ true }
        requires spare { 1 ≤ self.old.spare }
        ensures { Recorded (entry.Deploy revision name ports) self.old self.new }
    {
        laws::existing_ascends();
        laws::finds();
        scaledown_laws::next_has_room();
        laws::reachable();
        laws::resizes();
        let newest_is_scaled = self.newest_is_scaled();
        let selectors = self.core.selectors();
        let entry = Entry::Deploy {
            revision,
            name,
            ports,
        };
        self.deadlines
            .record(&entry, selectors, newest_is_scaled, self.moment);
        if revision != selectors.stable {
            grow(&mut self.roster, revision, self.strategy.preview_replicas);
        }
        self.core.deploy(revision);
        self.history.push_reserved(entry);
    }

    /// Records the deploy of a new revision, which wants the size of a preview. The only error is an allocation
    /// failure, and it changes nothing.
    fn take_new(&mut self, name: Name, ports: Ports) -> Result<(), AllocError>
        requires unknown { let b = self.old.routing in namesake_of b.opening name b.past ≡ None }
        requires allowed { let b = self.old.routing in is_allowed b.strategy b.opening
            (entry.Deploy (last_number b.past + 1) name ports) b.past ≡ true }
        requires short { length self.old.routing.past ≤ 1000000 }
        requires spare { 1 ≤ self.old.spare }
        ensures ok { OnOk result (Recorded
            (entry.Deploy (last_number self.old.routing.past + 1) name ports) self.old self.new) }
        ensures err { OnErr result (self.new ≡ self.old) }
    {
        laws::appends();
        laws::finds();
        laws::names();
        scaledown_laws::next_has_room();
        laws::reachable();
        let newest_is_scaled = self.newest_is_scaled();
        let size = self.strategy.preview_replicas;
        let Ok(revision) = self.roster.add(name.get(), ports.get(), size) else {
            return Err(AllocError);
        };
        self.lists.add(revision);
        let entry = Entry::Deploy {
            revision,
            name,
            ports,
        };
        self.deadlines.record(&entry, self.core.selectors(), newest_is_scaled, self.moment);
        self.core.deploy(revision);
        self.history.push_reserved(entry);
        Ok(())
    }

    /// Whether the newest revision is scaled.
    pub(super) fn newest_is_scaled(&self) -> bool
        ensures { let b = self.now.routing in
            result ≡ is_scaled b.strategy (newest_of b.past) b.past }
    {
        laws::finds();
        laws::reachable();
        let newest = self.core.selectors().newest;
        match self.roster.find_number(newest) {
            Some(revision) => revision.desired > 0,
            None => false,
        }
    }
}

/// The greatest moment, in seconds from the start.
const LAST_MOMENT: u64 = 1 << 53;

/// Makes the newest revision want as many endpoints as after a promotion command: a retry makes it want at least the
/// size of a preview, and no other command changes what it wants.
fn resize_newest(roster: &mut Roster, newest: u64, command: &Entry, strategy: &Strategy)
    requires command { is_command command.now ≡ true }
    requires exists { IsSome (numbered newest roster.old.revisions) }
    ensures { (o : Opening) (past : List Entry) → newest ≡ newest_of past
        → roster.old.revisions ≡ revisions_of strategy.now o past → roster.new ≡ record roster.old {
          revisions = revisions_of strategy.now o (command.now ∷ past);
        } }
{
    laws::finds();
    laws::keeps();
    laws::resizes();
    match command {
        Entry::Retry => grow(roster, newest, strategy.preview_replicas),
        // A further command that resizes a revision would not be proved here.
        _ => {}
    }
}

/// Makes a revision want at least this many endpoints.
fn grow(roster: &mut Roster, number: u64, least: u32)
    requires { IsSome (numbered number roster.old.revisions) }
    ensures { IfSome (numbered number roster.old.revisions) (λ v. roster.new ≡ record roster.old {
      revisions = map (resized number (max least v.desired)) roster.old.revisions;
    }) }
{
    let desired = roster.find_number(number).unwrap().desired;
    roster.set_desired(number, desired.max(least));
}
