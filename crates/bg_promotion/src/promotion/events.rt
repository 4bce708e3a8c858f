//! The events of a core.
ghost use Rattle.std.specs.Prelude.{◌≡◌, true, false, ℕ, List, ◌∷◌, None, OnOk, OnErr};
ghost use Rattle.bg_strategy.specs.declared.strategy.Strategy.{Strategy};
ghost use Rattle.bg_history.specs.declared.entry.Entry.{Entry};
ghost use Rattle.bg_history.specs.AttemptBounds.{moment};
ghost use Rattle.bg_history.specs.Phases.{awaits_pre as awaits_pre_in, is_paused as is_paused_in, awaits_post as awaits_post_in, needs_pause as needs_pause_in};
ghost use Rattle.bg_promotion.specs.Core.{begun};
ghost use Rattle.bg_promotion.specs.Represents.{CoreRepresents};
ghost use Rattle.bg_promotion.specs.Answers.{abort_answer, retry_answer, promote_answer, promote_full_answer, verdict_answer};

use super::Core;
use super::attempt::Attempt;
use crate::faults::{AbortFault, PromoteFault, PromoteFullFault, RetryFault, VerdictFault};
use bg_history::{Analysis, AnalysisResult};

impl Core {
    /// Records the deploy of a revision. If it is the stable revision, the rollout goes back to it and no attempt runs;
    /// else an attempt of it begins.
    pub fn deploy(&mut self, revision: u64)
        ensures { (s : Strategy) (past : List Entry) (name ports : List ℕ)
            → CoreRepresents s self.old past → CoreRepresents s self.new
            (Entry.Deploy revision name ports ∷ past) }
    {
        if revision == self.stable {
            self.active = revision;
            self.running = false;
        } else {
            self.running = true;
        }
        self.halted = false;
        self.newest = revision;
        self.attempt = Attempt::new();
    }

    /// Records the verdict of an analysis at the moment `now`. A success passes the analysis; each other verdict halts
    /// the attempt. The error is `NoAnalysis` if the rollout doesn't wait for that analysis.
    #[tactic(auto, using(crate::proofs::Attempts::in_attempt_runs))]
    pub fn verdict(
        &mut self,
        analysis: Analysis,
        analysis_result: AnalysisResult,
        now: u64,
    ) -> Result<(), VerdictFault>
        ensures answer { (s : Strategy) (past : List Entry) → CoreRepresents s self.old past
            → result ≡ verdict_answer analysis s past }
        ensures ok { (s : Strategy) (past : List Entry) → CoreRepresents s self.old past
            → now ≡ moment past → OnOk result (CoreRepresents s self.new
            (Entry.Verdict analysis analysis_result ∷ past)) }
        ensures err { OnErr result (self.new ≡ self.old) }
    {
        let awaited = match analysis {
            Analysis::Pre => self.awaits_pre(),
            Analysis::Post => self.awaits_post(),
        };
        if !awaited {
            return Err(VerdictFault::NoAnalysis);
        }
        match (analysis_result, analysis) {
            (AnalysisResult::Successful, Analysis::Pre) => self.attempt.passed_at = Some(now),
            (AnalysisResult::Successful, Analysis::Post) => self.attempt.post_passed = true,
            _ => self.halt(),
        }
        Ok(())
    }

    /// Ends the pause. If the rollout isn't paused, the error is `Aborted` if the last attempt was halted, else
    /// `NotPaused`.
    #[tactic(auto, using(crate::proofs::Attempts::passed_runs))]
    pub fn promote(&mut self) -> Result<(), PromoteFault>
        ensures answer { (s : Strategy) (past : List Entry) → CoreRepresents s self.old past
            → result ≡ promote_answer s past }
        ensures ok { (s : Strategy) (past : List Entry) → CoreRepresents s self.old past
            → OnOk result (CoreRepresents s self.new (Entry.Promote ∷ past)) }
        ensures err { OnErr result (self.new ≡ self.old) }
    {
        if self.is_paused() {
            self.attempt.promote_given = true;
            Ok(())
        } else if self.halted {
            Err(PromoteFault::Aborted)
        } else {
            Err(PromoteFault::NotPaused)
        }
    }

    /// Skips the analyses and pauses of the attempt. The error is `Aborted` if the last attempt was halted; else
    /// `NothingToPromote` if no attempt runs; else `AlreadyFull` if this attempt already has a full promotion.
    pub fn promote_full(&mut self) -> Result<(), PromoteFullFault>
        ensures answer { (s : Strategy) (past : List Entry) → CoreRepresents s self.old past
            → result ≡ promote_full_answer past }
        ensures ok { (s : Strategy) (past : List Entry) → CoreRepresents s self.old past
            → OnOk result (CoreRepresents s self.new (Entry.PromoteFull ∷ past)) }
        ensures err { OnErr result (self.new ≡ self.old) }
    {
        if self.halted {
            return Err(PromoteFullFault::Aborted);
        }
        if !self.running {
            return Err(PromoteFullFault::NothingToPromote);
        }
        if self.attempt.promote_full_given {
            return Err(PromoteFullFault::AlreadyFull);
        }
        self.attempt.promote_full_given = true;
        Ok(())
    }

    /// Aborts the attempt: the active and the preview service go back to the stable revision. The error is
    /// `AlreadyAborted` if the last attempt was halted; else `NothingToAbort` if no attempt runs.
    pub fn abort(&mut self) -> Result<(), AbortFault>
        ensures answer { (s : Strategy) (past : List Entry) → CoreRepresents s self.old past
            → result ≡ abort_answer past }
        ensures ok { (s : Strategy) (past : List Entry) → CoreRepresents s self.old past
            → OnOk result (CoreRepresents s self.new (Entry.Abort ∷ past)) }
        ensures err { OnErr result (self.new ≡ self.old) }
    {
        if self.halted {
            return Err(AbortFault::AlreadyAborted);
        }
        if !self.running {
            return Err(AbortFault::NothingToAbort);
        }
        self.halt();
        Ok(())
    }

    /// Begins a new attempt of the newest revision. The error is `NotAborted` if the last attempt wasn't halted.
    pub fn retry(&mut self) -> Result<(), RetryFault>
        ensures answer { (s : Strategy) (past : List Entry) → CoreRepresents s self.old past
            → result ≡ retry_answer past }
        ensures ok { (s : Strategy) (past : List Entry) → CoreRepresents s self.old past
            → OnOk result (CoreRepresents s self.new (Entry.Retry ∷ past)) }
        ensures err { OnErr result (self.new ≡ self.old) }
    {
        if !self.halted {
            return Err(RetryFault::NotAborted);
        }
        self.halted = false;
        self.running = true;
        self.attempt = Attempt::new();
        Ok(())
    }

    /// Whether the rollout waits for the verdict of the analysis before the switch.
    pub(super) fn awaits_pre(&self) -> bool
        ensures { (s : Strategy) (past : List Entry) → CoreRepresents s self.now past
            → result ≡ awaits_pre_in s past }
    {
        self.attempt.ready && !self.attempt.resumed && self.pre && self.attempt.passed_at.is_none()
    }

    /// Whether the rollout is in the pause before the switch.
    pub(super) fn is_paused(&self) -> bool
        ensures { (s : Strategy) (past : List Entry) → CoreRepresents s self.now past
            → result ≡ is_paused_in s past }
    {
        self.attempt.passed_at.is_some() && !self.attempt.resumed && self.needs_pause()
    }

    /// Whether the rollout waits for the verdict of the analysis after the switch.
    pub(super) fn awaits_post(&self) -> bool
        ensures { (s : Strategy) (past : List Entry) → CoreRepresents s self.now past
            → result ≡ awaits_post_in s past }
    {
        self.attempt.switched && self.post
    }

    /// Whether the strategy has a pause before the switch.
    pub(super) fn needs_pause(&self) -> bool
        ensures { (s : Strategy) (past : List Entry) → CoreRepresents s self.now past
            → result ≡ needs_pause_in s }
    {
        !self.auto_promotion || self.auto_seconds > 0
    }

    /// Halts the attempt.
    fn halt(&mut self)
        ensures { self.new ≡ record self.old {
          active = self.old.stable;
          running = false;
          halted = true;
          attempt = begun;
        } }
    {
        self.active = self.stable;
        self.running = false;
        self.halted = true;
        self.attempt = Attempt::new();
    }
}
