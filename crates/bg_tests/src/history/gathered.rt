//! The properties of each gathered history.
use bg_audit::audit;
use bg_history::History;
use bg_strategy::Strategy;
use std::alloc::Global;
use std::test::Fail;

/// Fails if the history is not legal, or leaves something undone.
pub(crate) fn expect_audited(
    alloc: Global,
    history: &History,
    strategy: &Strategy,
) -> Result<(), Fail> {
    if audit(alloc, history, strategy)? {
        Ok(())
    } else {
        Err(Fail::new("the audit refuses the gathered history"))
    }
}
