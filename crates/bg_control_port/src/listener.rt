//! Where connections come in.

use std::io;
use std::net::{TcpListener, TcpStream};
use std::os::fd::AsRawFd;
use std::os::unix::net::{UnixListener, UnixStream};

/// Where connections come in.
#[derive(Clone, Copy, Debug, Drop, PartialEq, Eq)]
pub enum Entrance {
    Port,
    Socket,
}

/// The listeners at which operators connect.
#[derive(Drop)]
pub struct ControlListeners {
    /// That of the port, if there is one.
    pub port: Option<TcpListener>,
    /// That of the socket, if there is one.
    pub socket: Option<UnixListener>,
}

/// A listener.
pub trait Listener: AsRawFd {
    /// Its connections.
    type Stream: Drop;

    /// Makes its accepts not wait. An error if the system call fails.
    fn wait_never(&self) -> io::Result<()>;

    /// Accepts a connection. If none waits, the error is WouldBlock.
    fn accept_next(&self) -> io::Result<Self::Stream>;
}

impl Listener for TcpListener {
    type Stream = TcpStream;

    fn wait_never(&self) -> io::Result<()> {
        self.set_nonblocking(true)
    }

    fn accept_next(&self) -> io::Result<TcpStream> {
        let (stream, _from) = self.accept()?;
        Ok(stream)
    }
}

impl Listener for UnixListener {
    type Stream = UnixStream;

    fn wait_never(&self) -> io::Result<()> {
        self.set_nonblocking(true)
    }

    fn accept_next(&self) -> io::Result<UnixStream> {
        let (stream, _from) = self.accept()?;
        Ok(stream)
    }
}
