//! The look-up in the tables of the system.

use crate::peer_lookup::PeerLookup;
use crate::peer_table::PeerTable;
use crate::socket_row::PeerSocket;
use std::alloc::{AllocError, Global};
use std::net::TcpStream;

/// Looks connections of one port up in the tables in which Linux lists the sockets of this machine (proc_pid_net(5)).
#[derive(Drop)]
pub struct SystemLookup {
    alloc: Global,
}

impl SystemLookup {
    pub fn new(alloc: Global) -> SystemLookup {
        SystemLookup { alloc }
    }
}

impl PeerLookup<TcpStream> for SystemLookup {
    /// Takes some milliseconds, and more on a machine with many sockets. The tables are read once more if they do not
    /// have one of the connections, since they may change during a read.
    fn read(&mut self, streams: &[TcpStream]) -> Result<Vec<PeerSocket>, AllocError> {
        let mut sockets = Vec::new(self.alloc);
        let Some(first) = streams.first() else {
            return Ok(sockets);
        };
        let mut table = PeerTable::read(self.alloc, first)?;
        if !table.has_all(streams)? {
            table = PeerTable::read(self.alloc, first)?;
        }
        for stream in streams {
            sockets.push(table.peer_socket(stream)?)?;
        }
        Ok(sockets)
    }
}
