//! What the elements of fields say (RFC 9110 section 5.6.1).
ghost use Rattle.std.specs.Prelude.{◌≡◌, ◌||◌};
ghost use Rattle.std.specs.List.{list_any};
ghost use Rattle.std.specs.Str.{str_eq_ignore_ascii_case};
ghost use Rattle.bg_http.specs.Codings.{is_empty};
ghost use Rattle.bg_http.specs.Elements.{elements_named as elements_of};
ghost use Rattle.bg_http.specs.Names.{spelled};
ghost use Rattle.bg_upgrade.specs.Upgrades as spec;

use bg_http::{Fields, RuledName, elements_named, is_same_name};

/// Whether an element of the fields of the name is the word, in any case of its letters.
pub(crate) fn have_element(fields: &Fields, name: RuledName, word: &[u8]) -> bool
    ensures { result ≡ list_any (λ element. str_eq_ignore_ascii_case element word.now)
        (elements_of (spelled name) fields.now) }
{
    elements_named(fields, name).any(|element| is_same_name(element, word))
}

/// Whether the Upgrade fields name a protocol.
pub(crate) fn names_protocol(fields: &Fields) -> bool
    ensures { result ≡ spec.names_protocol fields.now }
{
    elements_named(fields, RuledName::Upgrade).any(|protocol| !protocol.is_empty())
}

/// Whether the protocol is empty, or the Upgrade fields name it.
fn is_known(fields: &Fields, protocol: &[u8]) -> bool
    ensures { result ≡ (is_empty protocol.now || spec.names_this fields.now protocol.now) }
{
    protocol.is_empty() || have_element(fields, RuledName::Upgrade, protocol)
}

/// Whether the Upgrade fields name each protocol that the other ones name.
pub(crate) fn names_each_of(fields: &Fields, others: &Fields) -> bool
    ensures { result ≡ spec.names_each_of fields.now others.now }
{
    elements_named(others, RuledName::Upgrade).all(|protocol| is_known(fields, protocol))
}
