//! The fields of a head.
ghost use Rattle.std.specs.Prelude.{◌≡◌, ◌≤◌, ◌++◌, ◌∷◌, [], All, length, map, slice_get, IfOk, OnOk, OnErr};
ghost use Rattle.httparse.specs.Spans.{IsHeaderWithin, header_bytes};
ghost use Rattle.bg_http.specs.Elements.{field_lent};
ghost use Rattle.bg_http.specs.FieldPlaces.{IsPlaceIn};
ghost use Rattle.bg_http.specs.declared.field_place.FieldPlace.{FieldPlace};

use crate::field::Field;
use crate::field_place::FieldPlace;
use crate::names::ruled_name;
use httparse::spans::{HeaderSpan, Span};
use std::alloc::{AllocError, Global};
use std::marker::Model;

/// The fields of a head in the order in which they came, each a name and a value. Contracts see
/// them as a list of pairs. All names and values share one text.
#[derive(Debug)]
pub struct Fields {
    text: Vec<u8>,
    places: Vec<FieldPlace>,
}

impl Drop for Fields {
    /// Drops the fields by one call, so that the proofs of what owns a value are short (CONTRIBUTING.md, "What a check costs").
    fn drop(self) {
        let Fields { text: _, places: _ } = self;
    }
}

impl Model for Fields {
    ghost use Rattle.std.specs.Prelude.{All, List, ℕ, map};
    ghost use Rattle.bg_http.specs.FieldPlaces.{IsPlaceIn, field_at};

    ghost Value = { List (List ℕ × List ℕ) };

    ghost view = { λ f. map (field_at f.text.items) f.places.items };

    ghost invariant = { λ f. All (IsPlaceIn f.text.items) f.places.items };
}

/// Appends bytes to a text, and gives their position in it.
fn put(text: &mut Vec<u8>, bytes: &[u8]) -> Result<Span, AllocError>
    ensures ok { OnOk result (text.new.items ≡ text.old.items ++ bytes.now) }
    ensures start { IfOk result (λ span. span.start ≡ length text.old.items) }
    ensures end { IfOk result (λ span. span.end ≡ length text.new.items) }
    ensures err { OnErr result (text.new.items ≡ text.old.items) }
{
    let start = text.len();
    text.extend_from_slice(bytes)?;
    let end = text.len();
    Ok(Span { start, end })
}

/// The end of the last span.
fn end_of(text: &[u8], spans: &[HeaderSpan]) -> usize
    requires { All (IsHeaderWithin (length text.now)) spans.now }
    ensures within { All (IsHeaderWithin result) spans.now }
    ensures fits { result ≤ length text.now }
{
    let mut end = 0;
    for span in spans {
        end = end.max(span.name.end).max(span.value.end);
    }
    end
}

/// The positions of the fields that the spans cover.
fn places_of(
    alloc: Global,
    text: &[u8],
    spans: &[HeaderSpan],
) -> Result<Vec<FieldPlace>, AllocError>
    requires { All (IsHeaderWithin (length text.now)) spans.now }
    ensures places { IfOk result (λ places. All (IsPlaceIn text.now) places.items) }
    ensures spans { IfOk result (λ places. map (λ place. place.spans) places.items ≡ spans.now) }
{
    let mut places = Vec::with_capacity(alloc, spans.len())?;
    for span in spans {
        places.push(FieldPlace::new(text, *span))?;
    }
    Ok(places)
}

impl Fields {
    /// Copies the pairs of a name and a value, in order. The only error is an allocation failure.
    /// Like `add`, it does not check the bytes.
    pub fn new(alloc: Global, pairs: &[(&[u8], &[u8])]) -> Result<Fields, AllocError>
        ensures { IfOk result (λ f. f ≡ map field_lent pairs.now) }
    {
        let mut fields = Fields {
            text: Vec::new(alloc),
            places: Vec::new(alloc),
        };
        for &(name, value) in pairs {
            fields.add(name, value)?;
        }
        Ok(fields)
    }

    /// The fields that `httparse` found in a text. The text is copied once, up to the end of the
    /// last field. The only error is an allocation failure.
    pub fn of_spans(alloc: Global, text: &[u8], spans: &[HeaderSpan]) -> Result<Fields, AllocError>
        requires { All (IsHeaderWithin (length text.now)) spans.now }
        ensures { IfOk result (λ f. f ≡ map (header_bytes text.now) spans.now) }
    {
        let front = &text[..end_of(text, spans)];
        let places = places_of(alloc, front, spans)?;
        let copy = Vec::from_slice(alloc, front)?;
        Ok(Fields { text: copy, places })
    }

    /// Adds a copy of `name` and `value` at the end. The only error is an allocation failure, and
    /// it changes nothing. The bytes are not checked; those of a head that was read contain no end
    /// of line.
    pub fn add(&mut self, name: &[u8], value: &[u8]) -> Result<(), AllocError>
        ensures ok { OnOk result (self.new ≡ self.old ++ (name.now, value.now) ∷ []) }
        ensures err { OnErr result (self.new ≡ self.old) }
    {
        let ruled = ruled_name(name);
        // All memory is reserved first, so that a failure leaves no part of the field behind.
        self.places.reserve(1)?;
        self.text.reserve(name.len() + value.len())?;
        let name = put(&mut self.text, name)?;
        let value = put(&mut self.text, value)?;
        let spans = HeaderSpan { name, value };
        self.places.push(FieldPlace { spans, ruled })?;
        Ok(())
    }

    /// The number of fields.
    pub fn len(&self) -> usize
        ensures { result ≡ length self.now }
    {
        self.places.len()
    }

    /// The field at `place`, counted from 0.
    pub fn at(&self, place: usize) -> Option<Field<'_>>
        ensures { result ≡ slice_get self.now place }
    {
        let place = self.places.get(place)?;
        Some(place.field_in(self.text.as_slice()))
    }

    /// The fields in order.
    pub fn get(&self) -> FieldIter<'_>
        ensures { result ≡ self.now }
    {
        FieldIter {
            text: self.text.as_slice(),
            places: self.places.as_slice(),
        }
    }
}

/// An iterator over the fields of a head, in order. Contracts see them as a list of pairs.
#[derive(Drop)]
pub struct FieldIter<'a> {
    text: &'a [u8],
    places: &'a [FieldPlace],
}

impl<'a> Model for FieldIter<'a> {
    ghost use Rattle.std.specs.Prelude.{All, List, ℕ, map};
    ghost use Rattle.bg_http.specs.FieldPlaces.{IsPlaceIn, field_at};

    ghost Value = { List (List ℕ × List ℕ) };

    ghost view = { λ f. map (field_at f.text.now) f.places.now };

    ghost invariant = { λ f. All (IsPlaceIn f.text.now) f.places.now };
}

impl<'a> Iterator for FieldIter<'a> {
    ghost use Rattle.std.specs.Iterator.{YieldsFirst, item_count};

    type Item = Field<'a>;

    ghost next_gives = { YieldsFirst (λ left. left) };

    ghost remaining = { item_count (λ left. left) };

    fn next(&mut self) -> Option<Field<'a>> {
        let [place, rest @ ..] = self.places else {
            return None;
        };
        self.places = rest;
        Some(place.field_in(self.text))
    }
}
