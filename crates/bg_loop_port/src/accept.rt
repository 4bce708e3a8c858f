//! How a client is accepted.

use libc::net::{_SS_SIZE, SOCK_CLOEXEC, SOCK_NONBLOCK};
use os::FromRawFd;
use std::io;
use std::io::ErrorKind;
use std::net::{TcpListener, TcpStream};
use std::os::fd::{AsRawFd, OwnedFd};

/// The number of bytes of an address that C reads: the size of its sockaddr_in.
const ADDRESS_LENGTH: u32 = 16;

/// The result of an accept.
#[derive(Drop)]
pub enum Accepted {
    /// A connection whose calls never wait.
    Stream(TcpStream),
    /// No client waits.
    Nothing,
    /// The system gives no connection now, for example because no descriptor is free.
    Failed,
}

/// The next client that waits, if any. The call does not wait.
pub(crate) fn accept(listener: &TcpListener) -> Accepted {
    let mut address = [0u8; _SS_SIZE];
    let mut length = ADDRESS_LENGTH;
    let descriptor = unsafe {
        libc::net::accept4(
            listener.as_raw_fd(),
            &mut address,
            &mut length,
            SOCK_NONBLOCK | SOCK_CLOEXEC,
        )
    };
    if descriptor < 0 {
        return match io::Error::from_raw_os_error(os::errno()).kind() {
            ErrorKind::WouldBlock | ErrorKind::Interrupted | ErrorKind::ConnectionAborted => {
                Accepted::Nothing
            }
            _ => Accepted::Failed,
        };
    }
    Accepted::Stream(TcpStream::from(unsafe { OwnedFd::from_raw_fd(descriptor) }))
}
