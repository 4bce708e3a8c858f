//! The settings of a rollout.
ghost use Rattle.std.specs.Prelude.{◌≡◌, ◌≤◌};

use crate::service_name::ServiceName;
use std::alloc::AllocError;

/// The strategy of a blue-green rollout (Argo Rollouts, "BlueGreen Deployment Strategy" and "Rollout
/// Specification").
#[derive(Debug)]
pub struct Strategy {
    /// The service that carries live traffic: `activeService`.
    pub active_service: ServiceName,
    /// The service that reaches a new revision before the switch: `previewService`.
    pub preview_service: Option<ServiceName>,
    /// The number of endpoints of a revision at full size, 1 to 64: `replicas`.
    pub replicas: u32,
    /// The number of endpoints of a new revision before the switch, 1 to `replicas`:
    /// `previewReplicaCount`.
    pub preview_replicas: u32,
    /// Whether a new revision is promoted without an operator: `autoPromotionEnabled`.
    pub auto_promotion: bool,
    /// The length of the pause before that promotion, in seconds: `autoPromotionSeconds`; 0 means no pause. Without
    /// `auto_promotion`, a pause lasts until an operator ends it.
    pub auto_seconds: u32,
    /// Whether the switch waits for an analysis: `prePromotionAnalysis`.
    pub pre: bool,
    /// Whether an analysis follows the switch: `postPromotionAnalysis`.
    pub post: bool,
    /// How long a revision stays scaled after it left the active service, in seconds: `scaleDownDelaySeconds`. It is
    /// due earlier if `revision_limit` is reached, and stays longer while it has open requests.
    pub delay: u32,
    /// How many revisions that left the active service may stay scaled: `scaleDownDelayRevisionLimit`; `None` means
    /// no limit.
    pub revision_limit: Option<u32>,
    /// How long an aborted revision stays scaled, in seconds: `abortScaleDownDelaySeconds`; 0 means
    /// without limit. A deploy of another revision makes it due at once.
    pub abort_delay: u32,
    /// How long the open requests of a draining revision may last after its deadline, in seconds:
    /// `drainLimitSeconds`; `None` means without limit. Argo Rollouts has no such field.
    pub drain_limit: Option<u32>,
    /// How many old revisions are kept: `revisionHistoryLimit`.
    pub history_limit: u32,
    ghost some_replica: { 1 ≤ replicas },
    ghost few_replicas: { replicas ≤ 64 },
    ghost some_preview: { 1 ≤ preview_replicas },
    ghost few_previews: { preview_replicas ≤ replicas },
}

impl Drop for Strategy {
    /// Drops the fields by one call, so that the proofs of what owns a value are short (CONTRIBUTING.md, "What a check costs").
    fn drop(self) {
        let Strategy {
            active_service: _,
            preview_service: _,
            replicas: _,
            preview_replicas: _,
            auto_promotion: _,
            auto_seconds: _,
            pre: _,
            post: _,
            delay: _,
            revision_limit: _,
            abort_delay: _,
            drain_limit: _,
            history_limit: _,
        } = self;
    }
}

/// The copy has the same settings. The only error is an allocation failure.
impl Clone for Strategy {
    ghost is_clone = { λ strategy copy. copy ≡ strategy };

    fn clone(&self) -> Result<Strategy, AllocError> {
        Ok(Strategy {
            active_service: self.active_service.clone()?,
            preview_service: self.preview_service.clone()?,
            replicas: self.replicas,
            preview_replicas: self.preview_replicas,
            auto_promotion: self.auto_promotion,
            auto_seconds: self.auto_seconds,
            pre: self.pre,
            post: self.post,
            delay: self.delay,
            revision_limit: self.revision_limit,
            abort_delay: self.abort_delay,
            drain_limit: self.drain_limit,
            history_limit: self.history_limit,
        })
    }
}
