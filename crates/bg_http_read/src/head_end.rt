//! Finds byte by byte where a head may end.
ghost use Rattle.std.specs.Prelude.{◌≡◌, ◌≤◌, length};
ghost use Rattle.bg_http_read.specs.HeadEnds.{after_byte, after_bytes, is_over};
ghost use Rattle.bg_http_read.specs.declared.head_end.HeadEnd.TheVariants as end;

use crate::intake::behind;
use memchr::memchr;

/// The bytes from the first end of a line on.
fn from_line_end(bytes: &[u8]) -> &[u8]
    ensures same { after_bytes end.Inside result.now ≡ after_bytes end.Inside bytes.now }
    ensures fewer { length result.now ≤ length bytes.now }
{
    match memchr(b'\n', bytes) {
        Some(place) => behind(bytes, place),
        None => &[],
    }
}

/// The position that the bytes of a head reach. A head ends at the first empty line after a line
/// that is not empty, so bytes that follow others are not parsed before that line.
#[derive(Clone, Copy, Drop)]
pub(crate) enum HeadEnd {
    /// Only empty lines came.
    Blank,
    /// Within a line.
    Inside,
    /// At the start of a line.
    LineStart,
    /// After a CR at the start of a line.
    AfterCr,
    /// An empty line came.
    Over,
}

impl HeadEnd {
    /// The position after the bytes at the front of a head.
    pub(crate) fn of(bytes: &[u8]) -> HeadEnd
        ensures { result ≡ after_bytes end.Blank bytes.now }
    {
        HeadEnd::Blank.after_all(bytes)
    }

    /// The position after more bytes.
    pub(crate) fn after_all(self, bytes: &[u8]) -> HeadEnd
        ensures { result ≡ after_bytes self bytes.now }
    {
        let mut end = self;
        let mut rest = end.told_by(bytes);
        while let [byte, more @ ..] = rest {
            end = end.after(*byte);
            rest = end.told_by(more);
        }
        end
    }

    /// The bytes without those at the front that do not change the position.
    fn told_by(self, bytes: &[u8]) -> &[u8]
        ensures same { after_bytes self result.now ≡ after_bytes self bytes.now }
        ensures fewer { length result.now ≤ length bytes.now }
    {
        match self {
            HeadEnd::Inside => from_line_end(bytes),
            HeadEnd::Over => &[],
            HeadEnd::Blank | HeadEnd::LineStart | HeadEnd::AfterCr => bytes,
        }
    }

    fn after(self, byte: u8) -> HeadEnd
        ensures { result ≡ after_byte self byte }
    {
        match self {
            HeadEnd::Blank if byte == b'\n' || byte == b'\r' => HeadEnd::Blank,
            HeadEnd::Inside if byte == b'\n' => HeadEnd::LineStart,
            HeadEnd::LineStart if byte == b'\r' => HeadEnd::AfterCr,
            HeadEnd::LineStart | HeadEnd::AfterCr if byte == b'\n' => HeadEnd::Over,
            HeadEnd::Over => HeadEnd::Over,
            HeadEnd::Blank | HeadEnd::Inside | HeadEnd::LineStart | HeadEnd::AfterCr => {
                HeadEnd::Inside
            }
        }
    }

    /// Whether an empty line came, so that the head may be complete.
    pub(crate) fn is_over(&self) -> bool
        ensures { result ≡ is_over self.now }
    {
        matches!(self, HeadEnd::Over)
    }
}
