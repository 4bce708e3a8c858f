//! The addresses of sockets.

use std::net::{IpAddr, SocketAddr};

/// What the table has before an address of IPv4 of a socket for both IPv6 and IPv4 (RFC 4291 section 2.5.5.2), each four
/// bytes as a number of this machine.
const MAPPED: &[u8] = b"0000000000000000FFFF0000";

/// The number of digits of an address, and of a port, in the table.
const ADDRESS_DIGITS: usize = 8;

const PORT_DIGITS: usize = 4;

/// An address of IPv4, as the number that the table has, and a port.
#[derive(Clone, Copy, PartialEq, Eq, Debug, Drop)]
pub(crate) struct EndPoint {
    address: u32,
    port: u16,
}

impl EndPoint {
    /// The end point of an address; `None` if it is not one of IPv4.
    pub(crate) fn of(address: SocketAddr) -> Option<EndPoint> {
        match address.ip() {
            IpAddr::V4(ip) => Some(EndPoint {
                address: u32::from_ne_bytes(ip.octets()),
                port: address.port(),
            }),
            IpAddr::V6(_) => None,
        }
    }

    /// The end point of a word of the table: hexadecimal digits of the address, a colon, and those of the port;
    /// `None` if it is not one of IPv4.
    pub(crate) fn of_word(word: &[u8]) -> Option<EndPoint> {
        let word = match word.strip_prefix(MAPPED) {
            Some(rest) => rest,
            None => word,
        };
        let address = word.get(..ADDRESS_DIGITS)?;
        let colon = word.get(ADDRESS_DIGITS)?;
        let port = word.get(ADDRESS_DIGITS + 1..)?;
        if *colon != b':' || port.len() != PORT_DIGITS {
            return None;
        }
        Some(EndPoint {
            address: u32::from_str_radix(str::from_utf8(address).ok()?, 16).ok()?,
            port: u16::from_str_radix(str::from_utf8(port).ok()?, 16).ok()?,
        })
    }
}
