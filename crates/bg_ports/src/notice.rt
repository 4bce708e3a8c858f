//! A notice to standard error.

use bg_control_port::{Entrance, Peer};
use std::{fmt, io};

/// A notice.
#[derive(Drop)]
pub(crate) enum Notice<'a> {
    NoEventLoop {
        port: &'static str,
    },
    /// The number of event loops of a port that have begun, and the number that it should have.
    FewerEventLoops {
        port: &'static str,
        begun: usize,
        expected: usize,
    },
    AcceptsFail {
        port: &'static str,
    },
    ControlAcceptsFail {
        entrance: Entrance,
        reason: &'a io::Error,
    },
    UsedUp {
        port: &'static str,
    },
    HistoryNearlyFull {
        used: u64,
        most: u64,
    },
    /// The numbers of lines and requests that were refused because the history is full, since the last such
    /// notice.
    HistoryFull {
        lines: u64,
        requests: u64,
    },
    /// The number of responses that were cut off since the last such notice.
    ResponsesCut {
        responses: u64,
    },
    /// A line of this peer, which was carried out.
    Decision {
        peer: Peer,
        line: &'a str,
    },
    /// The number of connections of other users since the last such notice.
    RefusedConnections {
        connections: u64,
    },
    LogTakesNothing {
        reason: &'a io::Error,
    },
    LogLinesLost {
        lost: u64,
    },
    JournalResumed {
        path: &'a str,
        resumed: Resumed,
    },
    JournalRefused {
        path: &'a str,
        reason: &'a str,
    },
    /// A setting of the journal's strategy that differs from that of the Rollout.
    OtherSetting {
        kept: &'a str,
        given: &'a str,
    },
    JournalFails {
        path: &'a str,
    },
    JournalKeeps {
        path: &'a str,
    },
}

/// What was resumed from a journal.
#[derive(Clone, Copy, Drop)]
pub struct Resumed {
    /// The number of orders in the journal.
    pub orders: usize,
    /// The number of revisions that exist.
    pub revisions: usize,
    /// The name of the phase.
    pub phase: &'static str,
    /// The moment, in seconds.
    pub moment: u64,
}

impl fmt::Display for Notice<'_> {
    fn fmt<W: fmt::Write>(&self, f: &mut fmt::Formatter<W>) -> fmt::Result {
        match self {
            Notice::NoEventLoop { port } => write!(f, "the {port} port has no event loop"),
            Notice::FewerEventLoops {
                port,
                begun,
                expected,
            } => write!(f, "the {port} port has {begun} of {expected} event loops"),
            Notice::AcceptsFail { port } => {
                write!(f, "accepts fail at the {port} port, and are tried again")
            }
            Notice::ControlAcceptsFail { entrance, reason } => write!(
                f,
                "accepts fail at the control {}, and are tried again: {reason}",
                entrance_name(*entrance)
            ),
            Notice::UsedUp { port } => {
                write!(f, "the {port} port is closed: its connections are used up")
            }
            Notice::HistoryNearlyFull { used, most } => write!(
                f,
                "the history holds {used} of {most} entries; once it is full, requests and lines are refused"
            ),
            Notice::HistoryFull { lines, requests } => write!(
                f,
                "the history is full; lines refused: {lines}, requests refused: {requests}"
            ),
            Notice::ResponsesCut { responses } => write!(
                f,
                "responses that were cut off after a part of them was forwarded: {responses}"
            ),
            Notice::Decision { peer, line } => match peer {
                Peer::User(user) => write!(f, "user {user}: {line}"),
                Peer::AtSocket => write!(f, "control socket: {line}"),
                Peer::Anybody => write!(f, "control port: {line}"),
            },
            Notice::RefusedConnections { connections } => write!(
                f,
                "connections at the control port that are not of the users of BG_SWITCH_OPERATORS: {connections}"
            ),
            Notice::LogTakesNothing { reason } => write!(
                f,
                "the access log takes nothing: {reason}; its lines wait, and then are lost"
            ),
            Notice::LogLinesLost { lost } => write!(f, "the access log: lines lost: {lost}"),
            Notice::JournalResumed { path, resumed } => write!(
                f,
                "the journal {path} was resumed: orders {}, revisions {}, phase {}, moment {}",
                resumed.orders, resumed.revisions, resumed.phase, resumed.moment
            ),
            Notice::JournalRefused { path, reason } => {
                write!(f, "the journal {path} can't be used: {reason}")
            }
            Notice::OtherSetting { kept, given } => {
                write!(f, "the journal has {kept}, and the Rollout {given}")
            }
            Notice::JournalFails { path } => write!(
                f,
                "the journal {path} can't be written: it lacks the last order that was carried out, and further orders are refused until it has it"
            ),
            Notice::JournalKeeps { path } => {
                write!(f, "the journal {path} keeps each order again")
            }
        }
    }
}

/// The word for where connections come in.
fn entrance_name(entrance: Entrance) -> &'static str {
    match entrance {
        Entrance::Port => "port",
        Entrance::Socket => "socket",
    }
}
