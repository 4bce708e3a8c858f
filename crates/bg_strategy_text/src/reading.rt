//! Reads a strategy.
ghost use Rattle.std.specs.Prelude.{◌≡◌, ◌⊎◌, None, IfOk, IfErr};
ghost use Rattle.serde_json.specs.View.{view};
ghost use Rattle.bg_strategy_text.specs.Lookup.{text_of as text_in};
ghost use Rattle.bg_strategy_text.specs.Faults.{strategy_fault_of as strategy_fault_in};
ghost use Rattle.bg_strategy_text.specs.Settings.{IsStrategyOf};
ghost use Rattle.bg_strategy_text.specs.Reading.{IsStrategyIn, IsFaultIn};

use crate::fault::StrategyFault;
use crate::first_fault::strategy_fault_of;
use crate::hints::{hint_misspelt, hint_not_json};
use crate::lookup::{boolean_of, is_set, number_of, number_or, text_of};
use crate::table::Field;
use bg_strategy::{ServiceName, Strategy};
use serde_json::Value;
use std::alloc::{AllocError, Global};
use std::io;
use std::io::Write;

/// Reads the strategy of a Rollout from its JSON text, in the form that `kubectl get -o json` writes
/// (Argo Rollouts, "Rollout Specification" and "BlueGreen Deployment Strategy").
///
/// A field that is null counts as absent, and so does a service name with no bytes. A document that is
/// null has the wrong type. Unknown fields are ignored. The error is the first fault in this order: `NotJson`,
/// `Missing`, `WrongType`, `OutOfRange`, `SameService`. Of several fields with the same kind of fault, it names the first in the order of
/// `Field`. The error is `OutOfMemory` if an allocation fails, even if the document has another fault.
pub fn read(alloc: Global, bytes: &[u8]) -> Result<Strategy, StrategyFault>
    ensures ok { IfOk result (IsStrategyIn bytes.now) }
    ensures fault { IfErr result (λ e. (e ≡ StrategyFault.OutOfMemory) ⊎ IsFaultIn bytes.now e) }
{
    read_with_hints(alloc, bytes, &mut io::sink())
}

/// Reads a strategy as [`read`] does, and writes hints about its text to `errors`: where it is not valid JSON, and which
/// keys of `blueGreen` look misspelt. An error of `errors` changes nothing.
pub fn read_with_hints<W: Write>(
    alloc: Global,
    bytes: &[u8],
    errors: &mut W,
) -> Result<Strategy, StrategyFault>
    ensures ok { IfOk result (IsStrategyIn bytes.now) }
    ensures fault { IfErr result (λ e. (e ≡ StrategyFault.OutOfMemory) ⊎ IsFaultIn bytes.now e) }
{
    let document = match Value::from_slice(alloc, bytes) {
        Ok(document) => document,
        Err(error) => {
            let _ = hint_not_json(&error, bytes, errors);
            return Err(StrategyFault::from(error));
        }
    };
    let _ = hint_misspelt(&document, errors);
    if let Some(fault) = strategy_fault_of(&document) {
        return Err(fault);
    }
    Ok(strategy_of(alloc, &document)?)
}

fn strategy_of(alloc: Global, document: &Value) -> Result<Strategy, AllocError>
    requires { strategy_fault_in (view document.now) ≡ None }
    ensures { IfOk result (IsStrategyOf (view document.now)) }
{
    let active_service = name_of(alloc, Field::ActiveService, document)?.unwrap();
    let preview_service = name_of(alloc, Field::PreviewService, document)?;
    let replicas = number_or(Field::Replicas, document, 1);
    let preview_replicas = number_or(Field::PreviewReplicaCount, document, replicas);
    Ok(Strategy {
        active_service,
        preview_service,
        replicas,
        preview_replicas: preview_replicas.min(replicas),
        auto_promotion: boolean_of(Field::AutoPromotionEnabled, document).unwrap_or(true),
        auto_seconds: number_or(Field::AutoPromotionSeconds, document, 0),
        pre: is_set(Field::PrePromotionAnalysis, document),
        post: is_set(Field::PostPromotionAnalysis, document),
        delay: number_or(Field::ScaleDownDelaySeconds, document, 30),
        revision_limit: number_of(Field::ScaleDownDelayRevisionLimit, document),
        abort_delay: number_or(Field::AbortScaleDownDelaySeconds, document, 30),
        drain_limit: number_of(Field::DrainLimitSeconds, document),
        history_limit: number_or(Field::RevisionHistoryLimit, document, 10),
    })
}

fn name_of(alloc: Global, field: Field, document: &Value) -> Result<Option<ServiceName>, AllocError>
    ensures { IfOk result (λ o. text_in field (view document.now) ≡ o) }
{
    match text_of(field, document) {
        Some(text) => Ok(Some(ServiceName::new(alloc, text)?)),
        None => Ok(None),
    }
}
