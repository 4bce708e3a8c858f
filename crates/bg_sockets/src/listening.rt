//! Listeners, and the addresses of this machine.

use crate::backlog::begin_to_listen;
use crate::calls::last_error;
use crate::socket_address::SocketAddress;
use libc::net::{
    IPPROTO_IPV6, IPV6_V6ONLY, SO_REUSEADDR, SOCK_CLOEXEC, SOCK_STREAM, SOL_SOCKET, bind,
    setsockopt, socket,
};
use os::FromRawFd;
use std::io;
use std::io::ErrorKind;
use std::net::{IpAddr, TcpListener};
use std::os::fd::{AsRawFd, OwnedFd};

/// The value of a flag of setsockopt(2) that is set, and the number of its bytes that C reads.
const SET: [u8; 16] = [1, 0, 0, 0, 0, 0, 0, 0, 0, 0, 0, 0, 0, 0, 0, 0];

const SET_LENGTH: u32 = 4;

/// A listener at a port of an address, with the backlog of the ports. At `::` it takes the connections to all IPv6 addresses of
/// this machine, and none to an IPv4 address (`IPV6_V6ONLY` of ipv6(7)). An error if a system call fails.
pub fn listen_at(address: IpAddr, port: u16) -> io::Result<TcpListener> {
    let bound = bound_to(address, port)?;
    begin_to_listen(&bound)?;
    Ok(TcpListener::from(bound))
}

/// Whether an address is one of this machine: whether a socket can be bound to it. Also if it cannot be told, since another call
/// fails or since the bind fails for another reason than the address.
pub fn is_of_this_machine(address: IpAddr) -> bool {
    match bound_to(address, 0) {
        Ok(_) => true,
        Err(error) => error.kind() != ErrorKind::AddrNotAvailable,
    }
}

/// A socket that is bound to a port of an address, or to any free one if the port is 0. The port may have connections of an
/// earlier process (`SO_REUSEADDR` of socket(7)).
fn bound_to(address: IpAddr, port: u16) -> io::Result<OwnedFd> {
    let place = SocketAddress::of(address, port);
    let descriptor = unsafe { socket(place.family, SOCK_STREAM | SOCK_CLOEXEC, 0) };
    if descriptor < 0 {
        return Err(last_error());
    }
    let made = unsafe { OwnedFd::from_raw_fd(descriptor) };
    reuse_address(&made)?;
    if address.is_ipv6() {
        take_no_ipv4(&made)?;
    }
    done(unsafe { bind(made.as_raw_fd(), &place.bytes, place.length) })?;
    Ok(made)
}

fn reuse_address(made: &OwnedFd) -> io::Result<()> {
    let fd = made.as_raw_fd();
    done(unsafe { setsockopt(fd, SOL_SOCKET, SO_REUSEADDR, &SET, SET_LENGTH) })
}

fn take_no_ipv4(made: &OwnedFd) -> io::Result<()> {
    let fd = made.as_raw_fd();
    done(unsafe { setsockopt(fd, IPPROTO_IPV6, IPV6_V6ONLY, &SET, SET_LENGTH) })
}

/// What a system call with this status has come to.
fn done(status: i32) -> io::Result<()> {
    if status < 0 {
        return Err(last_error());
    }
    Ok(())
}
