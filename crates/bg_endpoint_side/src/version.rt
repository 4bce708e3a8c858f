//! The version with which a response begins.
ghost use Rattle.std.specs.Prelude.{◌≡◌, Some, codes};
ghost use Rattle.std.specs.Option.{option_copied};
ghost use Rattle.bg_endpoint_side.specs.Versions.{awaited, awaited_on, is_whole};

/// The version by which a connection is kept, unless a message says that it is closed (RFC 9112 section 9.3).
const VERSION: &[u8] = b"HTTP/1.1";

/// How far the bytes that came are the version.
#[derive(Clone, Copy, Drop)]
pub(crate) struct VersionMatch {
    /// What is still to come of the version; `None` if other bytes came.
    pub(crate) left: Option<&'static [u8]>,
}

impl VersionMatch {
    /// No byte came.
    pub(crate) fn new() -> VersionMatch
        ensures { option_copied result.left ≡ Some (codes "HTTP/1.1") }
    {
        VersionMatch {
            left: Some(VERSION),
        }
    }

    /// The same after these bytes came.
    pub(crate) fn after(self, bytes: &[u8]) -> VersionMatch
        ensures { option_copied result.left ≡ awaited_on (option_copied self.left) bytes.now }
    {
        match self.left {
            Some(left) => VersionMatch {
                left: left_after(left, bytes),
            },
            None => self,
        }
    }

    /// Whether the bytes that came begin with the version.
    pub(crate) fn is_whole(self) -> bool
        ensures { result ≡ is_whole (option_copied self.left) }
    {
        match self.left {
            Some(left) => left.is_empty(),
            None => false,
        }
    }
}

/// What is still to come of a text after these bytes; `None` if they are not its next ones.
fn left_after<'t>(text: &'t [u8], bytes: &[u8]) -> Option<&'t [u8]>
    ensures { option_copied result ≡ awaited text.now bytes.now }
{
    let mut left = text;
    for byte in bytes {
        match left {
            [] => return Some(left),
            [first, rest @ ..] if first == byte => left = rest,
            _ => return None,
        }
    }
    Some(left)
}
