//! Sets of descriptors for whose events a thread waits.
ghost use Rattle.std.specs.Prelude.{◌≤◌, length};

use crate::calls::last_error;
use libc::net::{EPOLL_CLOEXEC, EPOLL_CTL_ADD, EPOLL_CTL_DEL, EPOLL_CTL_MOD, epoll_create1};
use os::{EpollEvent, FromRawFd, epoll_ctl, epoll_wait};
use std::io;
use std::os::fd::{AsRawFd, OwnedFd, RawFd};

/// A descriptor in a set: the events for which it is watched, as flags of epoll_ctl(2), and the number that each of its
/// events gives.
#[derive(Clone, Copy, Debug, Drop, PartialEq, Eq)]
pub struct Watched {
    pub descriptor: RawFd,
    pub events: u32,
    pub number: u64,
}

/// A set of descriptors for whose events a thread waits (epoll(7)).
#[derive(Drop)]
pub struct EpollSet {
    set: OwnedFd,
}

impl EpollSet {
    /// An empty set. An error if the system call fails.
    pub fn new() -> io::Result<EpollSet> {
        let fd = epoll_create1(EPOLL_CLOEXEC);
        if fd < 0 {
            return Err(last_error());
        }
        Ok(EpollSet {
            set: unsafe { OwnedFd::from_raw_fd(fd) },
        })
    }

    /// Adds a descriptor. An error if the system call fails.
    pub fn add(&self, watched: Watched) -> io::Result<()> {
        self.control(EPOLL_CTL_ADD, watched)
    }

    /// Changes the events or the number of a descriptor of the set. An error if the system call fails.
    pub fn change(&self, watched: Watched) -> io::Result<()> {
        self.control(EPOLL_CTL_MOD, watched)
    }

    /// Removes a descriptor, if the set has it.
    pub fn remove(&self, descriptor: RawFd) {
        let _ = epoll_ctl(self.set.as_raw_fd(), EPOLL_CTL_DEL, descriptor, 0, 0);
    }

    fn control(&self, operation: i32, watched: Watched) -> io::Result<()> {
        let Watched {
            descriptor,
            events,
            number,
        } = watched;
        if epoll_ctl(self.set.as_raw_fd(), operation, descriptor, events, number) == 0 {
            return Ok(());
        }
        Err(last_error())
    }

    /// Waits until a descriptor is ready, for at most `millis` milliseconds; -1 stands for no limit. Puts the events at
    /// the front of `events`, and gives their number; 0 also if a signal interrupts the wait.
    pub fn wait(&self, events: &mut [EpollEvent], millis: i32) -> usize
        ensures { result ≤ length events.new }
    {
        epoll_wait(self.set.as_raw_fd(), events, millis)
    }
}
