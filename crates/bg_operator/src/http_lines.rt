//! Lines in the format of HTTP.
ghost use Rattle.std.specs.Prelude.{◌≡◌, ◌==◌, ◌||◌, length};
ghost use Rattle.std.specs.List.{list_all, position};
ghost use Rattle.http_header.specs.Token.{is_token_byte};
ghost use Rattle.bg_operator.specs.HttpLines.{is_field_line, is_request_line, is_spaced_version, is_target_and_version, is_token as is_token_of};

use http_header::is_token_char;

/// The length in bytes of a space and an HTTP version.
const VERSION_LENGTH: usize = 9;

/// Whether a line is a field line or a request line of HTTP (RFC 9112 sections 3 and 5).
pub fn is_field_or_request(line: &[u8]) -> bool
    ensures { result ≡ (is_field_line line.now || is_request_line line.now) }
{
    is_field(line) || is_request(line)
}

/// Whether a line begins with a field name and a colon.
fn is_field(line: &[u8]) -> bool
    ensures { result ≡ is_field_line line.now }
{
    match first_place(line, b':') {
        Some(at) => is_token(&line[..at]),
        None => false,
    }
}

/// Whether a line is a method, a request target and an HTTP version.
fn is_request(line: &[u8]) -> bool
    ensures { result ≡ is_request_line line.now }
{
    match first_place(line, b' ') {
        Some(at) => is_token(&line[..at]) && ends_in_version(&line[at + 1..]),
        None => false,
    }
}

/// Whether bytes are a request target and an HTTP version.
fn ends_in_version(bytes: &[u8]) -> bool
    ensures { result ≡ is_target_and_version bytes.now }
{
    bytes.len() > VERSION_LENGTH && is_version(&bytes[bytes.len() - VERSION_LENGTH..])
}

/// Whether bytes are a space and an HTTP version.
fn is_version(bytes: &[u8]) -> bool
    ensures { result ≡ is_spaced_version bytes.now }
{
    match bytes {
        [b' ', b'H', b'T', b'T', b'P', b'/', major, b'.', minor] => {
            major.is_ascii_digit() && minor.is_ascii_digit()
        }
        _ => false,
    }
}

/// Whether bytes are one or more token characters (RFC 9110 section 5.6.2).
fn is_token(bytes: &[u8]) -> bool
    ensures { result ≡ is_token_of bytes.now }
{
    !bytes.is_empty() && has_token_characters_only(bytes)
}

fn has_token_characters_only(bytes: &[u8]) -> bool
    ensures { result ≡ list_all is_token_byte bytes.now }
{
    bytes.iter().all(|byte| is_token_char(*byte))
}

/// The first position of a byte.
fn first_place(line: &[u8], sought: u8) -> Option<usize>
    ensures { result ≡ position (λ byte. byte == sought) line.now }
{
    line.iter().position(|byte| *byte == sought)
}
