//! Calls of sockets that never wait.
ghost use Rattle.std.specs.Prelude.{◌≤◌, IfOk};
ghost use Rattle.std.specs.Io.{ReadsAtMost, WritesAtMost};

use libc::net::{
    MSG_DONTWAIT, MSG_NOSIGNAL, MSG_PEEK, POLLERR, POLLHUP, POLLIN, POLLRDHUP, poll, recv, send,
};
use libc::types::pollfd;
use os::errno;
use std::io;
use std::net::{TcpListener, TcpStream};
use std::os::fd::AsRawFd;

/// The error of the system call that failed just now.
pub(crate) fn last_error() -> io::Error {
    io::Error::from_raw_os_error(errno())
}

/// The number of bytes that a call moved, at most `most`. A negative count means that the call
/// failed.
fn moved(count: isize, most: usize) -> io::Result<usize>
    ensures { IfOk result (λ moved. moved ≤ most) }
{
    if count < 0 {
        return Err(last_error());
    }
    Ok((count as usize).min(most))
}

/// Reads the available bytes. If there are none, the error is WouldBlock.
pub fn receive_now<S: AsRawFd>(stream: &S, buf: &mut [u8]) -> io::Result<usize>
    ensures { ReadsAtMost result buf.new }
{
    let most = buf.len();
    let count = unsafe { recv(stream.as_raw_fd(), buf, MSG_DONTWAIT) };
    moved(count, most)
}

/// Writes what the system takes at once. If it takes nothing, the error is WouldBlock.
pub fn send_now<S: AsRawFd>(stream: &S, bytes: &[u8]) -> io::Result<usize>
    ensures { WritesAtMost result bytes.now }
{
    let count = unsafe { send(stream.as_raw_fd(), bytes, MSG_NOSIGNAL | MSG_DONTWAIT) };
    moved(count, bytes.len())
}

/// Whether no byte is unread, or the input has ended.
pub fn is_drained(stream: &TcpStream) -> bool {
    let flags = MSG_PEEK | MSG_DONTWAIT;
    let count = unsafe { recv(stream.as_raw_fd(), &mut [0u8], flags) };
    match moved(count, 1) {
        Ok(count) => count == 0,
        Err(error) => error.kind() == io::ErrorKind::WouldBlock,
    }
}

/// Whether an accept would find a connection. An accept itself cannot tell: if no descriptor is free, it
/// fails even if none waits.
pub fn is_ready(listener: &TcpListener) -> bool {
    let mut asked = [pollfd {
        fd: listener.as_raw_fd(),
        events: POLLIN,
        revents: 0,
    }];
    poll(&mut asked, 0) > 0
}

/// Waits until bytes or the end of the input come, for at most `millis` milliseconds.
pub fn await_input(stream: &TcpStream, millis: i32) {
    let mut asked = [pollfd {
        fd: stream.as_raw_fd(),
        events: POLLIN,
        revents: 0,
    }];
    poll(&mut asked, millis);
}

/// What the system knows about the other end of a connection.
#[derive(Clone, Copy, PartialEq, Eq, Debug, Drop)]
pub enum OtherEnd {
    /// It may still send.
    Open,
    /// It ended its input: it shut its writing side, or closed the connection.
    Ended,
    /// It reset the connection.
    Reset,
}

/// What the system knows about the other end. If the call fails, the result is `Open`.
pub fn other_end(stream: &TcpStream) -> OtherEnd {
    let mut asked = [pollfd {
        fd: stream.as_raw_fd(),
        events: POLLRDHUP,
        revents: 0,
    }];
    if poll(&mut asked, 0) < 1 {
        return OtherEnd::Open;
    }
    let [told] = asked;
    if told.revents & (POLLERR | POLLHUP) != 0 {
        OtherEnd::Reset
    } else if told.revents & POLLRDHUP != 0 {
        OtherEnd::Ended
    } else {
        OtherEnd::Open
    }
}
