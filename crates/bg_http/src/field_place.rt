//! The positions of the fields of a head in its text.
ghost use Rattle.std.specs.Prelude.{◌≡◌, length};
ghost use Rattle.httparse.specs.Spans.{IsHeaderWithin};
ghost use Rattle.bg_http.specs.FieldPlaces.{IsPlaceIn, field_at};

use crate::field::Field;
use crate::names::{RuledName, ruled_name};
use httparse::spans::HeaderSpan;

/// The position of a field in the text of its head.
#[derive(Clone, Copy, Debug)]
pub(crate) struct FieldPlace {
    pub(crate) spans: HeaderSpan,
    /// The name as the rules know it. It is looked up once.
    pub(crate) ruled: Option<RuledName>,
}

impl FieldPlace {
    /// The position of the field that the spans cover.
    pub(crate) fn new(text: &[u8], spans: HeaderSpan) -> FieldPlace
        requires { IsHeaderWithin (length text.now) spans }
        ensures is_place { IsPlaceIn text.now result }
        ensures same { result.spans ≡ spans }
    {
        let ruled = ruled_name(spans.name.of(text));
        FieldPlace { spans, ruled }
    }

    /// The field at this position.
    pub(crate) fn field_in(self, text: &[u8]) -> Field<'_>
        requires { IsPlaceIn text.now self }
        ensures { result ≡ field_at text.now self }
    {
        let name = self.spans.name.of(text);
        let value = self.spans.value.of(text);
        Field::new(name, value, self.ruled)
    }
}
