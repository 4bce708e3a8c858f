//! A field of a head.
ghost use Rattle.std.specs.Prelude.{◌≡◌};
ghost use Rattle.bg_http.specs.Elements.{is_named};
ghost use Rattle.bg_http.specs.Names.{IsRuledAs, spelled};

use crate::names::RuledName;
use std::marker::Model;

/// A field of a head. Contracts see it as its name and its value. It borrows both from the head's
/// `Fields`.
#[derive(Drop, Debug)]
pub struct Field<'a> {
    name: &'a [u8],
    value: &'a [u8],
    /// The name as the rules know it.
    ruled: Option<RuledName>,
}

impl<'a> Model for Field<'a> {
    ghost use Rattle.std.specs.Prelude.{List, ℕ};
    ghost use Rattle.bg_http.specs.Names.{IsRuledAs};

    ghost Value = { List ℕ × List ℕ };

    ghost view = { λ f. (f.name.now, f.value.now) };

    ghost invariant = { λ f. IsRuledAs f.name.now f.ruled };
}

impl<'a> Field<'a> {
    /// The field with the name and the value. `ruled` is the result of looking the name up.
    pub(crate) fn new(name: &'a [u8], value: &'a [u8], ruled: Option<RuledName>) -> Field<'a>
        requires { IsRuledAs name.now ruled }
        ensures { result ≡ (name.now, value.now) }
    {
        Field { name, value, ruled }
    }

    /// The name, as it was received.
    pub fn name(&self) -> &'a [u8]
        ensures { result.now ≡ self.now.0 }
    {
        self.name
    }

    /// The value.
    pub fn value(&self) -> &'a [u8]
        ensures { result.now ≡ self.now.1 }
    {
        self.value
    }

    /// Whether the field has the name, in any case of its letters.
    pub fn is(&self, name: RuledName) -> bool
        ensures { result ≡ is_named (spelled name) self.now }
    {
        match self.ruled {
            Some(ruled) => ruled == name,
            None => false,
        }
    }
}
