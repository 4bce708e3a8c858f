//! How the other ends of connections are looked up.
ghost use Rattle.std.specs.Prelude.{IfOk, ⊤};
ghost use Rattle.std.specs.List.{AllZip};
ghost use Rattle.bg_peers.specs.declared.socket_row.PeerSocket.{PeerSocket};

use crate::socket_row::PeerSocket;
use std::alloc::AllocError;

/// Looks the other ends of connections up in a list. What the list tells may change from read to read.
pub trait PeerLookup<S> {
    /// The fact that holds for what a read tells of the other end of a connection: the state of the look-up before the
    /// read, that after it, the connection, and what is told, which has the user.
    ghost tells: { Self → Self → S → PeerSocket → Type 0 } = { λ _ _ _ _. ⊤ };

    /// Reads the list anew, and gives what it tells of the other end of each of these connections, in their order. The
    /// only error is an allocation failure.
    fn read(&mut self, streams: &[S]) -> Result<Vec<PeerSocket>, AllocError>
        ensures { IfOk result (λ sockets. AllZip (tells self.old self.new) streams.now sockets.items) };
}
