//! The revisions that exist, with their sizes and templates.
ghost use Rattle.std.specs.Prelude.{◌≡◌, [], ◌∷◌, ◌++◌, ◌==◌, not, true, List, map, filter, max, is_some, OnOk};
ghost use Rattle.std.specs.Option.{option_copied};
ghost use Rattle.bg_strategy.specs.declared.strategy.Strategy.{Strategy};
ghost use Rattle.bg_revisions.specs.Rosters.{numbered, named, resized, reported};
ghost use Rattle.bg_history.specs.declared.entry.Entry.{Entry};
ghost use Rattle.bg_history.specs.Kept.{Opening};
ghost use Rattle.bg_history.specs.Allowed.{is_allowed, may_deploy};
ghost use Rattle.bg_history_laws.specs.Reachable.{Reachable};
ghost use Rattle.bg_history_laws.specs.Listed.{revisions_of};
ghost use Rattle.bg_audit.specs.AuditedState.{IsAuditedState};
ghost use Rattle.bg_audit.specs.Sizes.{desired_in};

use crate::audited_state::AuditedState;
use bg_history::{Entry, Outcome};
use bg_history_laws as laws;
use bg_revisions::{Name, Ports, Revision};
use bg_strategy::Strategy;
use std::alloc::{AllocError, Global};

/// A template and the number of its revision.
#[derive(Clone, Copy, Drop)]
pub struct NumberedTemplate<'a> {
    pub number: u64,
    pub name: &'a str,
    pub ports: &'a [u16],
}

/// The revision of this number.
pub fn with_number(revisions: &[Revision], number: u64) -> Option<&Revision>
    ensures { option_copied result ≡ numbered number revisions.now }
{
    revisions.iter().find(|revision| revision.number == number)
}

/// The revision of this name.
pub fn with_name<'a>(revisions: &'a [Revision], name: &str) -> Option<&'a Revision>
    ensures { option_copied result ≡ named name.now revisions.now }
{
    revisions
        .iter()
        .find(|revision| revision.name.get() == name)
}

/// Whether there is a revision of this number.
fn has_number(revisions: &[Revision], number: u64) -> bool
    ensures { result ≡ is_some (numbered number revisions.now) }
{
    with_number(revisions, number).is_some()
}

/// Updates the revisions with an allowed entry; `state` is the state of the past before it. The only error is an
/// allocation failure.
pub fn take(
    alloc: Global,
    revisions: &mut Vec<Revision>,
    strategy: &Strategy,
    state: &AuditedState,
    entry: &Entry,
) -> Result<(), AllocError>
    ensures { (o : Opening) (past : List Entry) → IsAuditedState strategy.now past state.now
        → Reachable strategy.now o past → is_allowed strategy.now o entry.now past ≡ true
        → revisions.old.items ≡ revisions_of strategy.now o past
        → OnOk result (revisions.new.items ≡ revisions_of strategy.now o (entry.now ∷ past)) }
{
    laws::reports();
    laws::resizes();
    laws::keeps();
    laws::finds();
    match entry {
        Entry::Deploy {
            revision,
            name,
            ports,
        } => {
            let template = NumberedTemplate {
                number: *revision,
                name: name.get(),
                ports: ports.get(),
            };
            deploy(alloc, revisions, strategy, state, &template)?;
        }
        Entry::Available { revision, size } => report(revisions, *revision, *size),
        Entry::Retry => raise(revisions, state.newest, strategy.preview_replicas),
        Entry::Outcome(outcome) => settle(revisions, strategy, *outcome),
        _ => {}
    }
    Ok(())
}

/// Updates the revisions with a deploy. The only error is an allocation failure.
fn deploy(
    alloc: Global,
    revisions: &mut Vec<Revision>,
    strategy: &Strategy,
    state: &AuditedState,
    template: &NumberedTemplate,
) -> Result<(), AllocError>
    ensures { (o : Opening) (past : List Entry) → IsAuditedState strategy.now past state.now
        → Reachable strategy.now o past
        → may_deploy strategy.now o template.now.number template.now.name.now
        template.now.ports.now past ≡ true
        → revisions.old.items ≡ revisions_of strategy.now o past
        → OnOk result (revisions.new.items ≡ revisions_of strategy.now o (Entry.Deploy
        template.now.number template.now.name.now template.now.ports.now ∷ past)) }
{
    laws::resizes();
    laws::appends();
    laws::finds();
    let number = template.number;
    if !has_number(revisions, number) {
        add(alloc, revisions, template, strategy.preview_replicas)?;
    } else if number != state.stable {
        raise(revisions, number, strategy.preview_replicas);
    }
    Ok(())
}

/// Adds a revision that wants this many endpoints and has none available. The only error is an allocation failure.
pub fn add(
    alloc: Global,
    revisions: &mut Vec<Revision>,
    template: &NumberedTemplate,
    desired: u32,
) -> Result<(), AllocError>
    ensures { OnOk result (revisions.new.items ≡ revisions.old.items ++ record {
      number = template.now.number;
      name = template.now.name.now;
      ports = template.now.ports.now;
      desired = desired;
      available = 0;
    } ∷ []) }
{
    let name = Name::new(alloc, template.name)?;
    let ports = Ports::new(alloc, template.ports)?;
    revisions.push(Revision {
        number: template.number,
        name,
        ports,
        desired,
        available: 0,
    })?;
    Ok(())
}

/// Updates the revisions with an outcome.
fn settle(revisions: &mut Vec<Revision>, strategy: &Strategy, outcome: Outcome)
    ensures { (o : Opening) (past : List Entry) → Reachable strategy.now o past
        → is_allowed strategy.now o (Entry.Outcome outcome) past ≡ true
        → revisions.old.items ≡ revisions_of strategy.now o past
        → revisions.new.items ≡ revisions_of strategy.now o (Entry.Outcome outcome ∷ past) }
{
    laws::resizes();
    laws::removes();
    laws::keeps();
    laws::finds();
    match outcome {
        Outcome::Resumed(number) => raise(revisions, number, strategy.replicas),
        Outcome::ScaledDown(number) => resize(revisions, number, 0),
        Outcome::Removed(number) => remove(revisions, number),
        Outcome::Ready(_) | Outcome::Switched(_) | Outcome::Promoted(_) => {}
    }
}

/// Removes the revision.
fn remove(revisions: &mut Vec<Revision>, number: u64)
    ensures { revisions.new.items
        ≡ filter (λ v. not (v.number == number)) revisions.old.items }
{
    revisions.retain(|revision| revision.number != number);
}

/// Makes the revision want at least this many endpoints.
fn raise(revisions: &mut Vec<Revision>, number: u64, least: u32)
    ensures { revisions.new.items ≡ map (resized number
        (max least (desired_in number revisions.old.items))) revisions.old.items }
{
    let desired = match with_number(revisions, number) {
        Some(revision) => revision.desired,
        None => 0,
    };
    resize(revisions, number, least.max(desired));
}

/// Makes the revision want this many endpoints. If `desired` is 0, it has none available.
fn resize(revisions: &mut Vec<Revision>, number: u64, desired: u32)
    ensures { revisions.new.items ≡ map (resized number desired) revisions.old.items }
{
    for revision in revisions.iter_mut() {
        resize_one(revision, number, desired);
    }
}

fn resize_one(revision: &mut Revision, number: u64, desired: u32)
    ensures { revision.new ≡ resized number desired revision.old }
{
    if revision.number == number {
        revision.desired = desired;
        if desired == 0 {
            revision.available = 0;
        }
    }
}

/// Sets how many endpoints of the revision are available.
fn report(revisions: &mut Vec<Revision>, number: u64, available: u32)
    ensures { revisions.new.items ≡ map (reported number available) revisions.old.items }
{
    for revision in revisions.iter_mut() {
        report_one(revision, number, available);
    }
}

fn report_one(revision: &mut Revision, number: u64, available: u32)
    ensures { revision.new ≡ reported number available revision.old }
{
    if revision.number == number {
        revision.available = available;
    }
}
