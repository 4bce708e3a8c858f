//! One of the listeners of a port.
ghost use Rattle.std.specs.Prelude.{◌≡◌, IfOk, map};

use crate::accept::{Accepted, accept};
use bg_sockets::set_backlog;
use libc::net::{SHUT_RDWR, shutdown};
use std::alloc::Global;
use std::io;
use std::net::TcpListener;
use std::os::fd::{AsRawFd, RawFd};
use std::sync::atomic::{AtomicBool, Ordering};

/// One of the listeners of a port. The loops of the port share it.
#[derive(Drop)]
pub(crate) struct PortListener {
    listener: TcpListener,
    /// Whether a loop without room has left clients to the others.
    is_backlog_left: AtomicBool,
}

impl PortListener {
    /// The listener, whose accepts do not wait from now on. An error if a system call fails.
    fn new(listener: TcpListener) -> io::Result<PortListener>
        ensures { IfOk result (λ made. made.listener ≡ listener) }
    {
        listener.set_nonblocking(true)?;
        set_backlog(&listener);
        Ok(PortListener {
            listener,
            is_backlog_left: AtomicBool::new(false),
        })
    }

    /// These listeners, in their order. An error if a system call or an allocation fails.
    pub(crate) fn all(alloc: Global, listeners: Vec<TcpListener>) -> io::Result<Vec<PortListener>>
        ensures { IfOk result (λ all. map (λ l. l.listener) all.items ≡ listeners.items) }
    {
        let mut all = Vec::with_capacity(alloc, listeners.len())?;
        for listener in listeners {
            all.push(PortListener::new(listener)?)?;
        }
        Ok(all)
    }

    /// The descriptor, so that it can be watched.
    pub(crate) fn descriptor(&self) -> RawFd {
        self.listener.as_raw_fd()
    }

    /// Refuses clients from now on. The descriptor stays open, since loops may watch it.
    pub(crate) fn close(&self) {
        shutdown(self.listener.as_raw_fd(), SHUT_RDWR);
    }

    /// Notes that a loop without room accepts no client for a while, although clients may wait.
    pub(crate) fn leave_backlog(&self) {
        self.is_backlog_left.store(true, Ordering::SeqCst);
    }

    /// Whether a loop has left clients to the others, and no accept has found since that none waits.
    pub(crate) fn is_backlog_left(&self) -> bool {
        self.is_backlog_left.load(Ordering::SeqCst)
    }

    /// The next client that waits, if any. The call does not wait.
    pub(crate) fn accept(&self) -> Accepted {
        let accepted = accept(&self.listener);
        if matches!(&accepted, Accepted::Nothing) {
            self.is_backlog_left.store(false, Ordering::SeqCst);
        }
        accepted
    }
}
