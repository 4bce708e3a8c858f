//! How many connections may wait at a listener.

use crate::calls::last_error;
use libc::net::listen;
use std::io;
use std::os::fd::AsRawFd;

/// The backlog of each port: the number of connections that may wait in the system for an accept. If it is full, Linux
/// drops new ones, whose peers try again after a second or more, and resets clients that continue to send (SYN cookies). So
/// it has room for as many clients as a port may have workers. With a longer backlog, the clients of a flood would wait for
/// more seconds. The system may have a lower bound (`net.core.somaxconn`).
const BACKLOG: i32 = 1024;

/// Gives a listener the backlog of the ports. If the system refuses it, the listener keeps its own.
pub fn set_backlog<L: AsRawFd>(listener: &L) {
    listen(listener.as_raw_fd(), BACKLOG);
}

/// Makes a socket that is bound take connections, with the backlog of the ports. An error if the system call fails.
pub fn begin_to_listen<S: AsRawFd>(socket: &S) -> io::Result<()> {
    if listen(socket.as_raw_fd(), BACKLOG) == 0 {
        return Ok(());
    }
    Err(last_error())
}
