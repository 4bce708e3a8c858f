//! Why a port or the control socket cannot be bound.

use bg_control_port::SocketFault;
use std::net::IpAddr;
use std::{fmt, io};

/// What is bound.
#[derive(Clone, Copy, Debug, Drop)]
pub enum Place<'a> {
    Port {
        /// The word of the command line that gives the port.
        word: &'static str,
        port: u16,
        /// The address at which it is bound, or the first one.
        address: IpAddr,
    },
    /// The control socket with this path.
    Socket(&'a str),
}

impl fmt::Display for Place<'_> {
    fn fmt<W: fmt::Write>(&self, f: &mut fmt::Formatter<W>) -> fmt::Result {
        match self {
            Place::Port {
                word,
                port,
                address,
            } => write!(f, "port {port} of {address} (--{word})"),
            Place::Socket(path) => write!(f, "socket {path} (--control-socket)"),
        }
    }
}

impl<'a> Place<'a> {
    /// The outcome, with an error that says what cannot be bound.
    pub fn or_fault<T>(self, outcome: io::Result<T>) -> Result<T, BindFault<'a>> {
        match outcome {
            Ok(made) => Ok(made),
            Err(reason) => Err(self.fault(Reason::System(reason))),
        }
    }

    /// That it cannot be bound.
    pub fn fault(self, reason: Reason<'a>) -> BindFault<'a> {
        BindFault {
            place: self,
            reason,
        }
    }
}

/// Why a port or the control socket cannot be bound.
#[derive(Debug, Drop)]
pub enum Reason<'a> {
    /// A system call or an allocation failed.
    System(io::Error),
    Socket(SocketFault),
    /// These digits are no mode of a file.
    NoMode(u16),
    /// There is no group with this name.
    NoGroup(&'a str),
}

impl fmt::Display for Reason<'_> {
    fn fmt<W: fmt::Write>(&self, f: &mut fmt::Formatter<W>) -> fmt::Result {
        match self {
            Reason::System(reason) => write!(f, "{reason}"),
            Reason::Socket(reason) => write!(f, "{reason}"),
            Reason::NoMode(mode) => write!(f, "{mode} is no mode"),
            Reason::NoGroup(group) => write!(f, "there is no group {group}"),
        }
    }
}

/// The port that cannot be bound or set up, or the control socket, and the reason.
#[derive(Debug, Drop)]
pub struct BindFault<'a> {
    place: Place<'a>,
    reason: Reason<'a>,
}

impl fmt::Display for BindFault<'_> {
    fn fmt<W: fmt::Write>(&self, f: &mut fmt::Formatter<W>) -> fmt::Result {
        let BindFault { place, reason } = self;
        write!(f, "{place} can't be bound: {reason}")
    }
}
