//! The tables in which Linux lists the sockets of this machine (proc_pid_net(5)).

use crate::end_point::EndPoint;
use crate::lines::split_line;
use crate::socket_row::{Peer, PeerSocket, peer_of};
use crate::text_file::text_of;
use std::alloc::{AllocError, Global};
use std::net::TcpStream;

/// A socket for both IPv6 and IPv4 is in the second one, although its connection is one of IPv4.
const SOCKETS: &[u8] = b"/proc/net/tcp";

const SOCKETS_OF_IPV6: &[u8] = b"/proc/net/tcp6";

/// The other ends of the connections of a port, as the system lists them at about one moment.
#[derive(Drop)]
pub(crate) struct PeerTable {
    alloc: Global,
    /// The port's end of the connections; `None` if it is not one of IPv4.
    ours: Option<EndPoint>,
    peers: Vec<Peer>,
    /// Whether the second table was read too.
    has_second: bool,
}

impl PeerTable {
    /// Reads the other ends of the connections that have the same port as this one, which takes some milliseconds. The
    /// only error is an allocation failure.
    pub(crate) fn read(alloc: Global, stream: &TcpStream) -> Result<PeerTable, AllocError> {
        let mut table = PeerTable {
            alloc,
            ours: our_end(stream),
            peers: Vec::new(alloc),
            has_second: false,
        };
        table.add_rows(SOCKETS)?;
        Ok(table)
    }

    /// Whether the table has the other end of each of these connections, without those that were reset. The only error is
    /// an allocation failure.
    pub(crate) fn has_all(&mut self, streams: &[TcpStream]) -> Result<bool, AllocError> {
        for stream in streams {
            if their_end(stream).is_some() && self.peer_socket(stream)? == PeerSocket::Unknown {
                return Ok(false);
            }
        }
        Ok(true)
    }

    /// What the table tells of the other end of a connection, whose address is asked for after the table was read. Reads the
    /// second table if the first one does not have it. The only error is an allocation failure.
    pub(crate) fn peer_socket(&mut self, stream: &TcpStream) -> Result<PeerSocket, AllocError> {
        if our_end(stream) != self.ours {
            return Ok(PeerSocket::Unknown);
        }
        let Some(theirs) = their_end(stream) else {
            return Ok(PeerSocket::Unknown);
        };
        let found = self.found(theirs);
        if found != PeerSocket::Unknown || self.has_second {
            return Ok(found);
        }
        self.has_second = true;
        self.add_rows(SOCKETS_OF_IPV6)?;
        Ok(self.found(theirs))
    }

    fn found(&self, theirs: EndPoint) -> PeerSocket {
        for peer in &self.peers {
            if peer.end_point == theirs {
                return peer.socket;
            }
        }
        PeerSocket::Unknown
    }

    /// Adds the sockets of a table that are connected to the port.
    fn add_rows(&mut self, table: &[u8]) -> Result<(), AllocError> {
        let Some(ours) = self.ours else {
            return Ok(());
        };
        let text = text_of(self.alloc, table)?;
        let mut rest = text.as_slice();
        for _ in 0..text.len() {
            let Some((row, next)) = split_line(rest) else {
                return Ok(());
            };
            if let Some(peer) = peer_of(row, ours) {
                self.peers.push(peer)?;
            }
            rest = next;
        }
        Ok(())
    }
}

fn our_end(stream: &TcpStream) -> Option<EndPoint> {
    match stream.local_addr() {
        Ok(address) => EndPoint::of(address),
        Err(_) => None,
    }
}

fn their_end(stream: &TcpStream) -> Option<EndPoint> {
    match stream.peer_addr() {
        Ok(address) => EndPoint::of(address),
        Err(_) => None,
    }
}
