//! The names of the fields that tell an endpoint where a request comes from.
ghost use Rattle.std.specs.Prelude.{◌≡◌, codes};
ghost use Rattle.bg_origin.specs.OriginNames as spec;

/// Whether a field of this name tells where a request comes from: X-Forwarded-For, X-Forwarded-Proto, X-Forwarded-Host,
/// Forwarded or X-Request-Id, in any case of its letters, and with dashes or underscores. Servers that give fields as variables
/// of CGI read both spellings as one name.
pub(crate) fn tells_origin(name: &[u8]) -> bool
    ensures { result ≡ spec.tells_origin name.now }
{
    is_spelled(name, b"x-forwarded-for")
        || is_spelled(name, b"x-forwarded-proto")
        || is_spelled(name, b"x-forwarded-host")
        || is_spelled(name, b"forwarded")
        || is_spelled(name, b"x-request-id")
}

/// Whether a name is the other one, in any case of its letters, and with dashes or underscores.
fn is_spelled(name: &[u8], other: &[u8]) -> bool
    ensures { result ≡ spec.is_spelled name.now other.now }
{
    match (name, other) {
        ([], []) => true,
        ([byte, name @ ..], [other_byte, other @ ..]) => {
            dashed_byte(*byte).eq_ignore_ascii_case(other_byte) && is_spelled(name, other)
        }
        _ => false,
    }
}

/// The byte, with a dash for an underscore.
fn dashed_byte(byte: u8) -> u8
    ensures { result ≡ spec.dashed_byte byte }
{
    if byte == b'_' { b'-' } else { byte }
}
