//! Whether a client accepts HTML, as its Accept fields say (RFC 9110 sections 12.4.2 and 12.5.1).
ghost use Rattle.std.specs.Prelude.{◌≡◌, position};
ghost use Rattle.std.specs.List.{list_any};
ghost use Rattle.bg_http.specs.Accepts as spec;
ghost use Rattle.bg_http.specs.Elements.{trimmed};
ghost use Rattle.bg_http.specs.Held.{elements_left};

use crate::elements::{Elements, elements_named, is_same_name, trim};
use crate::fields::Fields;
use crate::names::RuledName;

/// Whether an element of the Accept fields is `text/html`, in any case of its letters, without a
/// weight of zero. A range with `*` does not name HTML, so it does not count. Commas and semicolons
/// within quoted strings are read as separators.
pub(crate) fn accepts_html(fields: &Fields) -> bool
    ensures { result ≡ spec.accepts_html fields.now }
{
    take_html(elements_named(fields, RuledName::Accept))
}

/// Whether an element takes HTML.
fn take_html(mut elements: Elements<'_>) -> bool
    ensures { result ≡ list_any spec.takes_html (elements_left elements.entry) }
{
    elements.any(|element| takes_html(element))
}

/// Whether the media range of an element is HTML, and no parameter of it is a weight of zero.
fn takes_html(element: &[u8]) -> bool
    ensures { result ≡ spec.takes_html element.now }
{
    match first_semicolon(element) {
        Some(place) => is_html(&element[..place]) && !has_zero_weight(&element[place + 1..]),
        None => is_html(element),
    }
}

/// The position of the first semicolon.
fn first_semicolon(element: &[u8]) -> Option<usize>
    ensures { result ≡ position spec.is_semicolon element.now }
{
    element.iter().position(|byte| *byte == b';')
}

/// Whether a media range is HTML, with blanks at its ends or without.
fn is_html(media_range: &[u8]) -> bool
    ensures { result ≡ spec.is_html (trimmed media_range.now) }
{
    is_same_name(trim(media_range), b"text/html")
}

/// Whether one of the parameters is a weight of zero.
fn has_zero_weight(parameters: &[u8]) -> bool
    ensures { result ≡ list_any spec.is_zero_weight (spec.parts parameters.now) }
{
    parameters
        .split(|byte| *byte == b';')
        .any(|parameter| is_zero_weight(trim(parameter)))
}

/// Whether a parameter is a weight of zero: what has this weight is not acceptable. A zero has at
/// most three digits after its point.
fn is_zero_weight(parameter: &[u8]) -> bool
    ensures { result ≡ spec.is_zero_weight parameter.now }
{
    is_same_name(parameter, b"q=0")
        || is_same_name(parameter, b"q=0.")
        || is_same_name(parameter, b"q=0.0")
        || is_same_name(parameter, b"q=0.00")
        || is_same_name(parameter, b"q=0.000")
}
