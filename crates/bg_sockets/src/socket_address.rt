//! Addresses of sockets, as C takes them.
ghost use Rattle.std.specs.Prelude.{◌≡◌, pos};
ghost use Rattle.bg_sockets.specs.SocketAddresses.{family_of, length_of, socket_address};

use libc::net::{_SS_SIZE, AF_INET, AF_INET6};
use std::net::{IpAddr, Ipv4Addr, Ipv6Addr};

/// The numbers of bytes of an address that C reads: the sizes of its sockaddr_in and its sockaddr_in6.
const LENGTH_V4: u32 = 16;

const LENGTH_V6: u32 = 28;

/// A port of an address, as C takes it.
#[derive(Clone, Copy, Drop)]
pub struct SocketAddress {
    /// The family of addresses.
    pub family: i32,
    /// C's sockaddr_in or sockaddr_in6.
    pub bytes: [u8; _SS_SIZE],
    /// The number of bytes that C reads.
    pub length: u32,
}

impl SocketAddress {
    /// The port of the address. Its flow information and its scope are 0 if it is an IPv6 address.
    pub fn of(address: IpAddr, port: u16) -> SocketAddress
        ensures family { result.family ≡ pos (family_of address) }
        ensures bytes { result.bytes ≡ socket_address address port }
        ensures length { result.length ≡ length_of address }
    {
        match address {
            IpAddr::V4(ip) => SocketAddress {
                family: AF_INET,
                bytes: bytes_v4(ip, port),
                length: LENGTH_V4,
            },
            IpAddr::V6(ip) => SocketAddress {
                family: AF_INET6,
                bytes: bytes_v6(ip, port),
                length: LENGTH_V6,
            },
        }
    }
}

/// A port of an IPv4 address, as C's sockaddr_in.
fn bytes_v4(ip: Ipv4Addr, port: u16) -> [u8; _SS_SIZE]
    ensures { result ≡ socket_address (IpAddr.V4 ip) port }
{
    let [high, low] = port.to_be_bytes();
    let [first, second, third, fourth] = ip.octets();
    let mut bytes = [0u8; _SS_SIZE];
    bytes[0] = AF_INET as u8;
    bytes[2] = high;
    bytes[3] = low;
    bytes[4] = first;
    bytes[5] = second;
    bytes[6] = third;
    bytes[7] = fourth;
    bytes
}

/// A port of an IPv6 address, as C's sockaddr_in6.
fn bytes_v6(ip: Ipv6Addr, port: u16) -> [u8; _SS_SIZE]
    ensures { result ≡ socket_address (IpAddr.V6 ip) port }
{
    let [high, low] = port.to_be_bytes();
    let mut bytes = [0u8; _SS_SIZE];
    bytes[0] = AF_INET6 as u8;
    bytes[2] = high;
    bytes[3] = low;
    bytes[8..24].copy_from_slice(&ip.octets());
    bytes
}
