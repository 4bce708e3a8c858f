//! The phases of a rollout.

/// The phase of a rollout (Argo Rollouts, "BlueGreen Deployment Strategy").
#[derive(Clone, Copy, PartialEq, Eq, Debug, Drop)]
pub enum Phase {
    /// No attempt runs, and the phase is not `Aborted`.
    Steady,
    /// The new revision isn't ready yet.
    Scaling,
    /// The rollout waits for the verdict of the analysis before the switch: `prePromotionAnalysis`.
    PreAnalysis,
    /// The rollout waits for an operator or for the end of the pause: `autoPromotionEnabled` and
    /// `autoPromotionSeconds`.
    Paused,
    /// The new revision grows to full size.
    Sizing,
    /// The rollout waits for the verdict of the analysis after the switch: `postPromotionAnalysis`.
    PostAnalysis,
    /// The last attempt was halted by an abort or a verdict, and no deploy or retry followed.
    Aborted,
}

impl Phase {
    ghost use Rattle.std.specs.Prelude.{◌≡◌};
    ghost use Rattle.bg_promotion.specs.PhaseNames.{phase_name};

    /// The name of the phase in a report: the name of the variant, with a lower-case first letter.
    pub fn name(&self) -> &'static str
        ensures { result.now ≡ phase_name self.now }
    {
        match self {
            Phase::Steady => "steady",
            Phase::Scaling => "scaling",
            Phase::PreAnalysis => "preAnalysis",
            Phase::Paused => "paused",
            Phase::Sizing => "sizing",
            Phase::PostAnalysis => "postAnalysis",
            Phase::Aborted => "aborted",
        }
    }
}
