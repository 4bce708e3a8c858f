//! How replies are written.
ghost use Rattle.std.specs.Prelude.{◌≤◌, IfOk, length};

use crate::reply::{AfterReply, Reply};
use bg_sockets::send_now;
use libc::net::{SHUT_RDWR, shutdown};
use std::io;
use std::io::ErrorKind;
use std::os::fd::{AsRawFd, OwnedFd};

/// Writes as much of a reply as its connection takes at once, and gives the number of these bytes. A connection that
/// has taken its last reply whole is shut down. An error if the connection failed.
pub fn write_reply(stream: &OwnedFd, reply: Reply) -> io::Result<usize> {
    let count = write_what_fits(stream, reply.bytes)?;
    if reply.after == AfterReply::Closes && count >= reply.bytes.len() {
        // its peer may have ended it already
        shutdown(stream.as_raw_fd(), SHUT_RDWR);
    }
    Ok(count)
}

/// Writes as much of these bytes as a connection takes at once, and gives their number. An error if the connection
/// failed.
fn write_what_fits(stream: &OwnedFd, bytes: &[u8]) -> io::Result<usize>
    ensures { IfOk result (λ taken. taken ≤ length bytes.now) }
{
    let mut taken = 0;
    while taken < bytes.len() {
        match send_now(stream, &bytes[taken..]) {
            Ok(0) => return Err(io::Error::from(ErrorKind::WriteZero)),
            Ok(count) => taken += count,
            Err(error) if error.kind() == ErrorKind::WouldBlock => return Ok(taken),
            Err(error) => return Err(error),
        }
    }
    Ok(taken)
}
