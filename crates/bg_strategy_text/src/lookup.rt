//! What a document has for each field.
ghost use Rattle.std.specs.Prelude.{◌≡◌, IfSome, option_map, unwrap_or};
ghost use Rattle.serde_json.specs.View.{view};
ghost use Rattle.bg_strategy_text.specs.Table.{field_rule};
ghost use Rattle.bg_strategy_text.specs.Lookup.{parent_of as parent_at, found as found_of, is_looked_at as is_looked_at_in, text_of as text_in};
ghost use Rattle.bg_strategy_text.specs.Settings.{IsWithin, number_of as number_at, boolean_of as boolean_at, is_set as is_set_in};

use crate::table::{Field, Place};
use crate::values::{is_given, number_in};
use serde_json::Value;

fn parent_of<'a>(place: Place, document: &'a Value) -> Option<&'a Value>
    ensures { option_map (λ v. view v.now) result ≡ parent_at place (view document.now) }
{
    match place {
        Place::Top => None,
        Place::Document => Some(document),
        Place::Spec => document.get("spec"),
        Place::Strategy => document.get("spec")?.get("strategy"),
        Place::BlueGreen => document.get("spec")?.get("strategy")?.get("blueGreen"),
    }
}

/// Whether the fields of the place are checked: their parent is an object.
pub(crate) fn is_looked_at(place: Place, document: &Value) -> bool
    ensures { result ≡ is_looked_at_in place (view document.now) }
{
    match parent_of(place, document) {
        Some(parent) => parent.is_object(),
        None => false,
    }
}

/// The value that the document gives for the field.
pub(crate) fn found<'a>(field: Field, document: &'a Value) -> Option<&'a Value>
    ensures { option_map (λ v. view v.now) result ≡ found_of field (view document.now) }
{
    let place = field.place();
    if let Place::Top = place {
        return Some(document);
    }
    let value = parent_of(place, document)?.get(field.name())?;
    if is_given(field.kind(), value) {
        Some(value)
    } else {
        None
    }
}

/// Whether the document gives a value for the field.
pub(crate) fn is_set(field: Field, document: &Value) -> bool
    ensures { result ≡ is_set_in field (view document.now) }
{
    found(field, document).is_some()
}

pub(crate) fn text_of<'a>(field: Field, document: &'a Value) -> Option<&'a str>
    ensures { option_map (λ t. t.now) result ≡ text_in field (view document.now) }
{
    found(field, document)?.as_str()
}

pub(crate) fn boolean_of(field: Field, document: &Value) -> Option<bool>
    ensures { result ≡ boolean_at field (view document.now) }
{
    found(field, document)?.as_bool()
}

pub(crate) fn number_of(field: Field, document: &Value) -> Option<u32>
    ensures value { result ≡ number_at field (view document.now) }
    ensures within { IfSome result (IsWithin (field_rule field).kind) }
{
    number_in(field.kind(), found(field, document)?)
}

/// The number that the document gives for the field, or `absent` if it gives none.
pub(crate) fn number_or(field: Field, document: &Value, absent: u32) -> u32
    ensures value { result ≡ unwrap_or (number_at field (view document.now)) absent }
    ensures within { IsWithin (field_rule field).kind absent → IsWithin (field_rule field).kind result }
{
    match number_of(field, document) {
        Some(n) => n,
        None => absent,
    }
}
