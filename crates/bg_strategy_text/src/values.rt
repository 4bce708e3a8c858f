//! The values that each kind of field takes.
ghost use Rattle.std.specs.Prelude.{◌≡◌, IfSome};
ghost use Rattle.serde_json.specs.View.{view};
ghost use Rattle.bg_strategy_text.specs.Values.{has_type as has_type_of, is_in_range as is_in_range_of, is_given as is_given_to, is_empty_service as is_empty_service_to};
ghost use Rattle.bg_strategy_text.specs.Settings.{IsWithin, number_in as number_as};

use crate::table::Kind;
use bg_strategy::is_dns_label;
use serde_json::Value;

pub(crate) fn has_type(kind: Kind, value: &Value) -> bool
    ensures { result ≡ has_type_of kind (view value.now) }
{
    match kind {
        Kind::Object => value.is_object(),
        Kind::Number { .. } => value.is_i64() || value.is_u64(),
        Kind::Service => value.is_string(),
        Kind::Boolean => value.is_boolean(),
        Kind::Anything => true,
    }
}

pub(crate) fn is_in_range(kind: Kind, value: &Value) -> bool
    ensures { result ≡ is_in_range_of kind (view value.now) }
{
    match kind {
        Kind::Number { least, most } => match value.as_u64() {
            Some(n) => u64::from(least) <= n && n <= u64::from(most),
            None => false,
        },
        Kind::Service => match value.as_str() {
            Some(text) => is_dns_label(text),
            None => false,
        },
        Kind::Object | Kind::Boolean | Kind::Anything => true,
    }
}

/// Whether the value counts as given: it is neither null nor the empty name of a service.
pub(crate) fn is_given(kind: Kind, value: &Value) -> bool
    ensures { result ≡ is_given_to kind (view value.now) }
{
    !value.is_null() && !is_empty_service(kind, value)
}

fn is_empty_service(kind: Kind, value: &Value) -> bool
    ensures { result ≡ is_empty_service_to kind (view value.now) }
{
    match kind {
        Kind::Service => match value.as_str() {
            Some(text) => text.len() == 0,
            None => false,
        },
        _ => false,
    }
}

/// The value as a number of the kind; `None` if it is no number or is outside the kind's range.
pub(crate) fn number_in(kind: Kind, value: &Value) -> Option<u32>
    ensures value { result ≡ number_as kind (view value.now) }
    ensures within { IfSome result (IsWithin kind) }
{
    match kind {
        Kind::Number { least, most } => {
            let n = value.as_u64()?;
            if u64::from(least) <= n && n <= u64::from(most) {
                Some(n as u32)
            } else {
                None
            }
        },
        _ => None,
    }
}
