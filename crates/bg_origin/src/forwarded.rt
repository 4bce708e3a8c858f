//! The value of a Forwarded field (RFC 7239).
ghost use Rattle.std.specs.Prelude.{◌≡◌, ◌++◌, IfOk, OnOk};
ghost use Rattle.std.specs.Option.{option_map};
ghost use Rattle.bg_origin.specs.Forwardeds as spec;

use std::alloc::Global;
use std::io;
use std::io::Write;
use std::net::IpAddr;

/// The number of bytes that most values do not exceed.
const USUAL_LENGTH: usize = 64;

/// The text of a client's address; `unknown` if the system did not give it (section 6.2). The only error is an allocation
/// failure.
pub(crate) fn client_text(alloc: Global, client: Option<IpAddr>) -> io::Result<Vec<u8>>
    ensures { IfOk result (λ text. text.items ≡ spec.client_text client) }
{
    let mut text = Vec::with_capacity(alloc, USUAL_LENGTH)?;
    match client {
        Some(address) => write!(text, "{address}")?,
        None => text.extend_from_slice(b"unknown")?,
    }
    Ok(text)
}

/// The element that this proxy adds to the Forwarded fields: the node that its client is, the Host that the client asked for, and
/// the scheme. The only error is an allocation failure.
pub(crate) fn forwarded_value(
    alloc: Global,
    client: Option<IpAddr>,
    host: Option<&[u8]>,
) -> io::Result<Vec<u8>>
    ensures { IfOk result (λ value. value.items ≡ spec.forwarded_value client (option_map (λ h. h.now) host.entry)) }
{
    let mut value = Vec::with_capacity(alloc, USUAL_LENGTH)?;
    value.extend_from_slice(b"for=")?;
    add_node(&mut value, client)?;
    add_host(&mut value, host)?;
    value.extend_from_slice(b";proto=http")?;
    Ok(value)
}

/// Adds the node that a client is. An IPv6 address stands in brackets, in a quoted string (section 6.1).
fn add_node(value: &mut Vec<u8>, client: Option<IpAddr>) -> io::Result<()>
    ensures { OnOk result (value.new.items ≡ value.old.items ++ spec.node_text client) }
{
    match client {
        Some(IpAddr::V4(address)) => write!(value, "{address}"),
        Some(IpAddr::V6(address)) => write!(value, "\"[{address}]\""),
        None => {
            value.extend_from_slice(b"unknown")?;
            Ok(())
        }
    }
}

/// Adds the Host that the client asked for, if it gave one, as a quoted string.
fn add_host(value: &mut Vec<u8>, host: Option<&[u8]>) -> io::Result<()>
    ensures { OnOk result (value.new.items ≡ value.old.items ++ spec.host_part (option_map (λ h. h.now) host.entry)) }
{
    let Some(host) = host else {
        return Ok(());
    };
    value.extend_from_slice(b";host=\"")?;
    add_quoted(value, host)?;
    value.extend_from_slice(b"\"")?;
    Ok(())
}

/// Adds a text as it stands in a quoted string (RFC 9110 section 5.6.4).
fn add_quoted(value: &mut Vec<u8>, text: &[u8]) -> io::Result<()>
    ensures { OnOk result (value.new.items ≡ value.old.items ++ spec.quoted text.now) }
{
    for byte in text {
        add_quoted_byte(value, *byte)?;
    }
    Ok(())
}

fn add_quoted_byte(value: &mut Vec<u8>, byte: u8) -> io::Result<()>
    ensures { OnOk result (value.new.items ≡ value.old.items ++ spec.quoted_byte byte) }
{
    if byte == b'"' || byte == b'\\' {
        value.push(b'\\')?;
    }
    value.push(byte)?;
    Ok(())
}
