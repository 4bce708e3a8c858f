//! Sockets that never wait.

use bg_endpoint_side::DialFault;
use bg_sockets::{SocketAddress, receive_now, send_now};
use libc::net::{SOCK_CLOEXEC, SOCK_NONBLOCK, SOCK_STREAM};
use os::FromRawFd;
use std::io::ErrorKind;
use std::net::{IpAddr, TcpStream};
use std::os::fd::{AsRawFd, OwnedFd};

/// An address of no family (AF_UNSPEC), and the number of its bytes that C reads.
const NO_ADDRESS: [u8; 128] = [0; 128];

const NO_ADDRESS_LENGTH: u32 = 16;

/// A connection that was dialled, and whether it is complete.
#[derive(Drop)]
pub(crate) struct DialledStream {
    pub(crate) stream: TcpStream,
    pub(crate) is_complete: bool,
}

/// Dials a port of an address. The connection may not be complete yet.
pub(crate) fn connect(address: IpAddr, port: u16) -> Result<DialledStream, DialFault> {
    let peer = SocketAddress::of(address, port);
    let descriptor = unsafe {
        libc::net::socket(peer.family, SOCK_STREAM | SOCK_NONBLOCK | SOCK_CLOEXEC, 0)
    };
    if descriptor < 0 {
        return Err(DialFault::NoSocket);
    }
    let stream = TcpStream::from(unsafe { OwnedFd::from_raw_fd(descriptor) });
    let is_complete = unsafe { libc::net::connect(stream.as_raw_fd(), &peer.bytes, peer.length) }
        == 0;
    if is_complete || os::errno() == libc::EINPROGRESS {
        return Ok(DialledStream {
            stream,
            is_complete,
        });
    }
    Err(DialFault::Failed)
}

/// Resets a connection, so that its other end can tell that what came is not whole: Linux dissolves a connection that is connected
/// to an address of no family, and sends a reset (connect(2)).
pub(crate) fn reset(stream: &TcpStream) {
    unsafe { libc::net::connect(stream.as_raw_fd(), &NO_ADDRESS, NO_ADDRESS_LENGTH) };
}

/// What a read gave.
#[derive(Clone, Copy, Drop)]
pub(crate) enum Input {
    Came(usize),
    Nothing,
    End,
    Failed,
}

/// Reads the bytes that are there.
pub(crate) fn read(stream: &TcpStream, piece: &mut [u8]) -> Input {
    match receive_now(stream, piece) {
        Ok(0) => Input::End,
        Ok(count) => Input::Came(count),
        Err(error) => match error.kind() {
            ErrorKind::WouldBlock | ErrorKind::Interrupted => Input::Nothing,
            _ => Input::Failed,
        },
    }
}

/// Writes what the system takes, and gives how many bytes that were. `None` if the connection takes no byte any more.
pub(crate) fn write(stream: &TcpStream, bytes: &[u8]) -> Option<usize> {
    match send_now(stream, bytes) {
        Ok(count) => Some(count),
        Err(error) => match error.kind() {
            ErrorKind::WouldBlock | ErrorKind::Interrupted => Some(0),
            _ => None,
        },
    }
}
