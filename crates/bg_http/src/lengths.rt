//! The length that Content-Length fields give.
ghost use Rattle.std.specs.Prelude.{◌≡◌, ◌&&◌, IsTrue};
ghost use Rattle.std.specs.Char.{is_ascii_digit};
ghost use Rattle.std.specs.List.{list_all};
ghost use Rattle.bg_http.specs.Held.{elements_left, length_held};
ghost use Rattle.bg_http.specs.Lengths.{content_length as length_in, is_digits as is_digits_in, has_digits as has_digits_in, number_within, without_zeros as digits_of};

use crate::elements::{Elements, elements_named};
use crate::fields::Fields;
use crate::names::RuledName;

/// The result of reading all Content-Length fields together. The digits have no leading zeros, so 0
/// has no digits.
#[derive(Clone, Copy)]
pub(crate) enum OneLength<'a> {
    Absent,
    Is(&'a [u8]),
    Wrong,
}

fn has_only_digits(text: &[u8]) -> bool
    ensures { result ≡ list_all is_ascii_digit text.now }
{
    text.iter().all(|byte| byte.is_ascii_digit())
}

/// Whether the text is one or more digits.
fn is_digits(text: &[u8]) -> bool
    ensures { result ≡ is_digits_in text.now }
{
    !text.is_empty() && has_only_digits(text)
}

fn without_zeros(mut digits: &[u8]) -> &[u8]
    ensures { result.now ≡ digits_of digits.now }
{
    while let [b'0', rest @ ..] = digits {
        digits = rest;
    }
    digits
}

/// Whether the element is a number with these digits, without its leading zeros.
fn has_digits(digits: &[u8], element: &[u8]) -> bool
    ensures { result ≡ has_digits_in digits.now element.now }
{
    is_digits(element) && without_zeros(element) == digits
}

/// Whether each element is a number with these digits, without its leading zeros.
fn all_have_digits(mut elements: Elements<'_>, digits: &[u8]) -> bool
    ensures { result ≡ list_all (has_digits_in digits.now) (elements_left elements.entry) }
{
    elements.all(|element| has_digits(digits, element))
}

/// The one length that all elements of the Content-Length fields give. Texts of digits are
/// compared, so no number is too large (RFC 9110 section 8.6, RFC 9112 section 6.3).
pub(crate) fn content_length(fields: &Fields) -> OneLength<'_>
    ensures { length_held result ≡ length_in fields.now }
{
    let Some(first) = elements_named(fields, RuledName::ContentLength).next() else {
        return OneLength::Absent;
    };
    let digits = without_zeros(first);
    let elements = elements_named(fields, RuledName::ContentLength);
    if all_have_digits(elements, digits) {
        OneLength::Is(digits)
    } else {
        OneLength::Wrong
    }
}

/// The number that the digits stand for, if it is at most `most`.
pub(crate) fn value_within(digits: &[u8], most: usize) -> Option<usize>
    requires { IsTrue (list_all is_ascii_digit digits.now) }
    ensures { result ≡ number_within most digits.now }
{
    let mut number = 0usize;
    for digit in digits {
        let value = usize::from(*digit - b'0');
        number = number.checked_mul(10)?.checked_add(value)?;
        if number > most {
            return None;
        }
    }
    Some(number)
}
