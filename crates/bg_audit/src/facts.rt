//! The facts of a past. Each follows from the past before and the newest entry.
ghost use Rattle.std.specs.Prelude.{◌≡◌, ◌<◌, ◌∷◌, ℕ, [], true, List, length, reverse, slice_get, Some, IfOk, OnOk};
ghost use Rattle.bg_history.specs.declared.entry.Entry.{Entry};
ghost use Rattle.bg_strategy.specs.declared.strategy.Strategy.{Strategy};
ghost use Rattle.bg_history.specs.Kept.{Opening};
ghost use Rattle.bg_history.specs.AttemptBounds.{newest_of};
ghost use Rattle.bg_history.specs.Sizes.{is_scaled};
ghost use Rattle.bg_history.specs.Allowed.{is_allowed};
ghost use Rattle.bg_history_laws.specs.Reachable.{Reachable};
ghost use Rattle.bg_audit.specs.AuditedState.{IsAuditedState};
ghost use Rattle.bg_audit.specs.Openings.{oldest};

use crate::audited_state::AuditedState;
use crate::marks::{Around, NewestMark};
use crate::requests::AuditedRequest;
use crate::revisions::NumberedTemplate;
use crate::{marks, requests, revisions};
use bg_history::{Entry, History};
use bg_revisions::Revision;
use bg_strategy::Strategy;
use std::alloc::{AllocError, Global};

/// The facts that the audit keeps of a past.
pub struct Facts {
    pub state: AuditedState,
    /// The revisions that exist, in ascending order of their numbers.
    pub revisions: Vec<Revision>,
    pub marks: Vec<NewestMark>,
    /// The open requests, in the order in which they entered.
    pub requests: Vec<AuditedRequest>,
    /// The greatest request number.
    pub greatest: Option<u64>,
    alloc: Global,
}

impl Drop for Facts {
    /// Drops the fields by one call, so that the proofs of what owns a value are short (CONTRIBUTING.md, "What a check costs").
    fn drop(self) {
        let Facts {
            state: _,
            revisions: _,
            marks: _,
            requests: _,
            greatest: _,
            alloc: _,
        } = self;
    }
}

impl Facts {
    ghost use Rattle.bg_audit.specs.Known.{Knows};

    /// The facts of a past without entries, whose revision 1 has this name and these ports. The only error is an
    /// allocation failure.
    pub fn new(
        alloc: Global,
        strategy: &Strategy,
        name: &str,
        ports: &[u16],
    ) -> Result<Facts, AllocError>
        ensures { (seats : ℕ) → IfOk result (λ f. Knows strategy.now (record {
          seats = seats;
          template = record { name = name.now; ports = ports.now };
        }) [] f) }
    {
        let mut revisions = Vec::new(alloc);
        let template = NumberedTemplate {
            number: 1,
            name,
            ports,
        };
        revisions::add(alloc, &mut revisions, &template, strategy.replicas)?;
        let mut marks = Vec::new(alloc);
        marks::add(&mut marks, 1)?;
        Ok(Facts {
            state: AuditedState::new(),
            revisions,
            marks,
            requests: Vec::new(alloc),
            greatest: None,
            alloc,
        })
    }

    /// Updates the facts with an allowed entry of the history, which stands at this place. The only error is an
    /// allocation failure.
    pub fn take(
        &mut self,
        strategy: &Strategy,
        entry: &Entry,
        history: &History,
        place: u64,
    ) -> Result<(), AllocError>
        requires place { place < length history.now.past }
        requires entry { slice_get (reverse history.now.past) place ≡ Some entry.now }
        requires state { IsAuditedState strategy.now (oldest place history.now.past) self.old.state }
        ensures { (o : Opening) → Knows strategy.now o (oldest place history.now.past) self.old
            → Reachable strategy.now o (oldest place history.now.past)
            → is_allowed strategy.now o entry.now (oldest place history.now.past) ≡ true
            → OnOk result (Knows strategy.now o (entry.now ∷ oldest place history.now.past) self.new) }
    {
        let before = self.state;
        let newest_is_scaled = self.newest_is_scaled();
        self.state.take(strategy, entry, history, place);
        let around = Around {
            before,
            after: self.state,
            newest_is_scaled,
            has_abort_delay: strategy.abort_delay > 0,
            position: place,
        };
        revisions::take(self.alloc, &mut self.revisions, strategy, &before, entry)?;
        marks::take(&mut self.marks, entry, &around)?;
        requests::take(&mut self.requests, entry)?;
        self.greatest = requests::greatest_number(self.greatest, entry);
        Ok(())
    }

    /// Whether the newest revision is scaled.
    fn newest_is_scaled(&self) -> bool
        ensures { (s : Strategy) (o : Opening) (past : List Entry) → Knows s o past self.now
            → Reachable s o past → result ≡ is_scaled s (newest_of past) past }
    {
        self.may_report(self.state.newest, 1)
    }
}
