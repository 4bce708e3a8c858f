//! The elements of fields: the parts of their values between commas (RFC 9110 section 5.6.1).
ghost use Rattle.std.specs.Prelude.{◌≡◌, IfNone, [], position};
ghost use Rattle.std.specs.Str.{str_eq_ignore_ascii_case};
ghost use Rattle.bg_http.specs.Elements.{elements_named as elements_of, has_field as has_named, is_blank as is_blank_byte, is_comma, without_blanks, trimmed};
ghost use Rattle.bg_http.specs.Held.{FirstElement, elements_left};
ghost use Rattle.bg_http.specs.Names.{spelled};

use crate::fields::{FieldIter, Fields};
use crate::names::RuledName;

/// Whether both are the same name, compared without case (RFC 9110 section 5.1).
pub fn is_same_name(one: &[u8], other: &[u8]) -> bool
    ensures { result ≡ str_eq_ignore_ascii_case one.now other.now }
{
    one.eq_ignore_ascii_case(other)
}

/// Whether a field has the name.
pub(crate) fn has_field(fields: &Fields, name: RuledName) -> bool
    ensures { result ≡ has_named (spelled name) fields.now }
{
    fields.get().any(|field| field.is(name))
}

/// Whether the byte is a space or a tab (RFC 9110 section 5.6.3).
fn is_blank(byte: u8) -> bool
    ensures { result ≡ is_blank_byte byte }
{
    byte == b' ' || byte == b'\t'
}

/// The text without the blanks at its front.
fn trim_start(mut text: &[u8]) -> &[u8]
    ensures { result.now ≡ without_blanks text.now }
{
    while let [first, rest @ ..] = text
        && is_blank(*first)
    {
        text = rest;
    }
    text
}

/// The text without the blanks at both ends.
pub(crate) fn trim(text: &[u8]) -> &[u8]
    ensures { result.now ≡ trimmed text.now }
{
    let mut text = trim_start(text);
    while let [rest @ .., last] = text
        && is_blank(*last)
    {
        text = rest;
    }
    text
}

/// The position of the first comma.
fn first_comma(value: &[u8]) -> Option<usize>
    ensures { result ≡ position is_comma value.now }
{
    value.iter().position(|byte| *byte == b',')
}

/// The first element of a value, and the text after the comma that follows it, if there is one.
fn first_element(value: &[u8]) -> (&[u8], Option<&[u8]>)
    ensures { FirstElement value.now result }
{
    match first_comma(value) {
        Some(place) => (trim(&value[..place]), Some(&value[place + 1..])),
        None => (trim(value), None),
    }
}

/// The elements of all fields that have a name, in order. Contracts see it as `elements_left`, those that are still to come.
#[derive(Drop)]
pub struct Elements<'a> {
    /// The remaining value of the current field.
    value: Option<&'a [u8]>,
    /// The remaining fields.
    fields: FieldIter<'a>,
    name: RuledName,
}

/// The elements of all fields that have the name, in order, without the blanks at their ends (RFC 9110 section 5.6.1). An element
/// may be empty.
pub fn elements_named(fields: &Fields, name: RuledName) -> Elements<'_>
    ensures { elements_left result ≡ elements_of (spelled name) fields.now }
{
    Elements {
        value: None,
        fields: fields.get(),
        name,
    }
}

impl Elements<'_> {
    /// If there is no current value, goes to the next field with the name.
    fn begin_value(&mut self)
        ensures left { elements_left self.new ≡ elements_left self.old }
        ensures end { IfNone self.new.value (elements_left self.new ≡ []) }
    {
        while self.value.is_none()
            && let Some(field) = self.fields.next()
        {
            if field.is(self.name) {
                self.value = Some(field.value());
            }
        }
    }
}

impl<'a> Iterator for Elements<'a> {
    ghost use Rattle.std.specs.Iterator.{YieldsFirstBy, item_count};
    ghost use Rattle.bg_http.specs.Held.{elements_left};

    type Item = &'a [u8];

    ghost next_gives = { YieldsFirstBy (λ element. element.now) elements_left };

    ghost remaining = { item_count elements_left };

    fn next(&mut self) -> Option<&'a [u8]> {
        self.begin_value();
        let (element, rest) = first_element(self.value?);
        self.value = rest;
        Some(element)
    }
}
