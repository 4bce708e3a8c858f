//! Signals between threads.

use crate::calls::last_error;
use libc::net::{EFD_CLOEXEC, EFD_NONBLOCK, POLLIN, eventfd, poll};
use libc::types::pollfd;
use os::FromRawFd;
use std::io;
use std::os::fd::{AsRawFd, OwnedFd, RawFd};

/// Each read takes one post (`EFD_SEMAPHORE` of eventfd(2)).
const SEMAPHORE: i32 = 1;

/// A count of posts that epoll sets can watch. It is readable while it is not 0.
#[derive(Drop)]
pub struct Signal {
    counter: OwnedFd,
}

impl Signal {
    /// A signal with no posts. An error if the system call fails.
    pub fn new() -> io::Result<Signal> {
        let fd = eventfd(0, EFD_CLOEXEC | EFD_NONBLOCK | SEMAPHORE);
        if fd < 0 {
            return Err(last_error());
        }
        Ok(Signal {
            counter: unsafe { OwnedFd::from_raw_fd(fd) },
        })
    }

    /// The descriptor that is watched.
    pub fn descriptor(&self) -> RawFd {
        self.counter.as_raw_fd()
    }

    /// Adds one post. It ends the wait of one watching thread, or the next wait.
    pub fn post(&self) {
        libc::write(self.counter.as_raw_fd(), &1u64.to_ne_bytes());
    }

    /// Takes one post, if there is one.
    pub fn take(&self) {
        libc::read(self.counter.as_raw_fd(), &mut [0u8; 8]);
    }

    /// Waits for a post, for at most `millis` milliseconds, and takes it.
    pub fn take_within(&self, millis: i32) {
        let mut asked = [pollfd {
            fd: self.counter.as_raw_fd(),
            events: POLLIN,
            revents: 0,
        }];
        if poll(&mut asked, millis) > 0 {
            self.take();
        }
    }
}
