//! The first fault of a document.
ghost use Rattle.std.specs.Prelude.{◌≡◌, find};
ghost use Rattle.serde_json.specs.View.{view};
ghost use Rattle.bg_strategy_text.specs.Faults.{strategy_fault_of as strategy_fault_in, fault_among as fault_among_in, has_same_services as has_same_services_in, is_missing as is_missing_in, has_wrong_type as has_wrong_type_in, is_out_of_range as is_out_of_range_in};

use crate::fault::StrategyFault;
use crate::lookup::{found, is_looked_at, text_of};
use crate::table::{FIELDS, Field};
use crate::values::{has_type, is_in_range};
use serde_json::Value;

pub(crate) fn strategy_fault_of(document: &Value) -> Option<StrategyFault>
    ensures { result ≡ strategy_fault_in (view document.now) }
{
    fault_among(&FIELDS, document)
}

fn fault_among(fields: &[Field], document: &Value) -> Option<StrategyFault>
    ensures { result ≡ fault_among_in fields.now (view document.now) }
{
    if let Some(field) = first_missing(fields, document) {
        return Some(StrategyFault::Missing(field));
    }
    if let Some(field) = first_mistyped(fields, document) {
        return Some(StrategyFault::WrongType(field));
    }
    if let Some(field) = first_outside(fields, document) {
        return Some(StrategyFault::OutOfRange(field));
    }
    if has_same_services(document) {
        Some(StrategyFault::SameService)
    } else {
        None
    }
}

fn first_missing(fields: &[Field], document: &Value) -> Option<Field>
    ensures { result ≡ find (is_missing_in (view document.now)) fields.now }
{
    fields.iter().copied().find(|f| is_missing(document, *f))
}

fn first_mistyped(fields: &[Field], document: &Value) -> Option<Field>
    ensures { result ≡ find (has_wrong_type_in (view document.now)) fields.now }
{
    fields
        .iter()
        .copied()
        .find(|f| has_wrong_type(document, *f))
}

fn first_outside(fields: &[Field], document: &Value) -> Option<Field>
    ensures { result ≡ find (is_out_of_range_in (view document.now)) fields.now }
{
    fields
        .iter()
        .copied()
        .find(|f| is_out_of_range(document, *f))
}

fn is_missing(document: &Value, field: Field) -> bool
    ensures { result ≡ is_missing_in (view document.now) field }
{
    field.is_needed() && is_looked_at(field.place(), document) && found(field, document).is_none()
}

fn has_wrong_type(document: &Value, field: Field) -> bool
    ensures { result ≡ has_wrong_type_in (view document.now) field }
{
    match found(field, document) {
        Some(value) => !has_type(field.kind(), value),
        None => false,
    }
}

fn is_out_of_range(document: &Value, field: Field) -> bool
    ensures { result ≡ is_out_of_range_in (view document.now) field }
{
    match found(field, document) {
        Some(value) => {
            let kind = field.kind();
            has_type(kind, value) && !is_in_range(kind, value)
        },
        None => false,
    }
}

fn has_same_services(document: &Value) -> bool
    ensures { result ≡ has_same_services_in (view document.now) }
{
    match (
        text_of(Field::ActiveService, document),
        text_of(Field::PreviewService, document),
    ) {
        (Some(active), Some(preview)) => active == preview,
        _ => false,
    }
}
