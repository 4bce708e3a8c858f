//! The form of a name.
ghost use Rattle.std.specs.Prelude.{◌≡◌, ◌≤◌, ◌-◌, ◌&&◌, length, slice_index};
ghost use Rattle.std.specs.List.{list_all};
ghost use Rattle.bg_strategy.specs.Label.{is_label, is_label_byte as is_label_byte_in, is_alphanumeric as is_alphanumeric_in};

/// Whether the text is a DNS label, in the form that Kubernetes requires of names (RFC 1123 section 2.1): 1 to 63
/// bytes, each a lower-case letter, a digit or `-`, with a letter or a digit at both ends.
pub fn is_dns_label(text: &str) -> bool
    ensures { result ≡ is_label text.now }
{
    let bytes = text.as_bytes();
    if bytes.len() < 1 || 63 < bytes.len() {
        return false;
    }
    has_label_bytes(bytes) && has_alphanumeric_ends(bytes)
}

fn has_label_bytes(bytes: &[u8]) -> bool
    ensures { result ≡ list_all is_label_byte_in bytes.now }
{
    bytes.iter().all(|c| is_label_byte(*c))
}

fn has_alphanumeric_ends(bytes: &[u8]) -> bool
    requires { 1 ≤ length bytes.now }
    ensures { result ≡ (is_alphanumeric_in (slice_index bytes.now 0)
        && is_alphanumeric_in (slice_index bytes.now (length bytes.now - 1))) }
{
    is_alphanumeric(bytes[0]) && is_alphanumeric(bytes[bytes.len() - 1])
}

fn is_label_byte(c: u8) -> bool
    ensures { result ≡ is_label_byte_in c }
{
    is_alphanumeric(c) || c == b'-'
}

fn is_alphanumeric(c: u8) -> bool
    ensures { result ≡ is_alphanumeric_in c }
{
    c.is_ascii_lowercase() || c.is_ascii_digit()
}
