//! The core: the state of the attempt to promote the newest revision.
ghost use Rattle.std.specs.Prelude.{◌≡◌, List, [], Some, None, IfSome, IfNone};
ghost use Rattle.bg_strategy.specs.declared.strategy.Strategy.{Strategy};
ghost use Rattle.bg_history.specs.declared.entry.Entry.{Entry};
ghost use Rattle.bg_history.specs.Promotion.{first_promotion};
ghost use Rattle.bg_promotion.specs.Represents.{CoreRepresents};
ghost use Rattle.bg_promotion.specs.Phases.{phase_of};
ghost use Rattle.bg_history.specs.Selections.{selectors_of};

mod attempt;
mod events;
mod outcomes;

use crate::phase::Phase;
use attempt::Attempt;
use bg_revisions::Selectors;
use bg_strategy::Strategy;
use std::marker::Model;

/// The part of a rollout's state that promotes a new revision.
///
/// A core represents a past if each of its fields is what the past says (`specs/Represents.antt`). The contract of each
/// call holds for every past that the core represents. No call allocates. A caller can try a command on a copy of the
/// core to learn its answer.
#[derive(Clone, Copy, Drop, Debug)]
pub struct Core {
    replicas: u32,
    preview_replicas: u32,
    auto_promotion: bool,
    auto_seconds: u32,
    pre: bool,
    post: bool,
    running: bool,
    halted: bool,
    attempt: Attempt,
    active: u64,
    stable: u64,
    newest: u64,
}

impl Model for Core {
    ghost use Rattle.bg_promotion.specs.Core.{Core};

    ghost Value = { Core };

    ghost view = { λ c. record {
      replicas = c.replicas;
      preview_replicas = c.preview_replicas;
      auto_promotion = c.auto_promotion;
      auto_seconds = c.auto_seconds;
      pre = c.pre;
      post = c.post;
      running = c.running;
      halted = c.halted;
      attempt = c.attempt;
      active = c.active;
      stable = c.stable;
      newest = c.newest;
    } };

    ghost inverse = { λ s. record {
      replicas = s.replicas;
      preview_replicas = s.preview_replicas;
      auto_promotion = s.auto_promotion;
      auto_seconds = s.auto_seconds;
      pre = s.pre;
      post = s.post;
      running = s.running;
      halted = s.halted;
      attempt = s.attempt;
      active = s.active;
      stable = s.stable;
      newest = s.newest;
    } };
}

impl Core {
    /// The core of a new rollout: revision 1 is active, stable and newest.
    pub fn new(strategy: &Strategy) -> Core
        ensures { CoreRepresents strategy.now result [] }
    {
        Core {
            replicas: strategy.replicas,
            preview_replicas: strategy.preview_replicas,
            auto_promotion: strategy.auto_promotion,
            auto_seconds: strategy.auto_seconds,
            pre: strategy.pre,
            post: strategy.post,
            running: false,
            halted: false,
            attempt: Attempt::new(),
            active: 1,
            stable: 1,
            newest: 1,
        }
    }

    /// The phase. While a step of the attempt is next, the history may have no phase; then the answer is `Sizing`.
    pub fn phase(&self) -> Phase
        ensures phase { (s : Strategy) (past : List Entry) → CoreRepresents s self.now past
            → IfSome (phase_of s past) (λ p. result ≡ p) }
        ensures none { (s : Strategy) (past : List Entry) → CoreRepresents s self.now past
            → IfNone (phase_of s past) (result ≡ Phase.Sizing) }
        ensures settled { (s : Strategy) (past : List Entry) → CoreRepresents s self.now past
            → first_promotion s past ≡ None → phase_of s past ≡ Some result }
    {
        if self.halted {
            Phase::Aborted
        } else if !self.running {
            Phase::Steady
        } else if !self.attempt.ready {
            Phase::Scaling
        } else if self.awaits_pre() {
            Phase::PreAnalysis
        } else if self.is_paused() {
            Phase::Paused
        } else if self.awaits_post() {
            Phase::PostAnalysis
        } else {
            Phase::Sizing
        }
    }

    /// The numbers of the active, preview, stable and newest revisions.
    pub fn selectors(&self) -> Selectors
        ensures { (s : Strategy) (past : List Entry) → CoreRepresents s self.now past
            → result ≡ selectors_of past }
    {
        Selectors {
            active: self.active,
            preview: if self.running {
                self.newest
            } else {
                self.stable
            },
            stable: self.stable,
            newest: self.newest,
        }
    }
}
