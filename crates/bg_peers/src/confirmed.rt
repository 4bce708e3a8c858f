//! Users of connections, by two reads of a list.
ghost use Rattle.std.specs.Prelude.{◌≡◌, All, IfOk, IfSome, replicate, true};
ghost use Rattle.std.specs.List.{list_any};
ghost use Rattle.bg_peers.specs.Confirmed.{AreConfirmed, confirmed_user, confirmed_users, has_user_of};
ghost use Rattle.bg_peers.specs.Users.{has_user};

#[cfg(test)]
mod tests;

use crate::peer_lookup::PeerLookup;
use crate::socket_row::PeerSocket;
use crate::users::Users;
use std::alloc::{AllocError, Global};

impl Users {
    /// Of each of these connections, in their order, the user at its other end, if that is one of these users; `None` for
    /// the others. The list is read twice, one read after the other, and both must tell that a process of this user has
    /// the socket. If the first one tells this of no connection, there is no second read. The only error is an allocation
    /// failure.
    ///
    /// Linux before about 6.17 reads the inode and the user of a row one after the other. If a process closes its socket
    /// between the two, the row has the inode, and the user 0 in the place of the true one. The next read then has no
    /// inode, since a socket that is closed stays so.
    pub fn confirmed<S, L: PeerLookup<S>>(
        &self,
        alloc: Global,
        lookup: &mut L,
        streams: &[S],
    ) -> Result<Vec<Option<u32>>, AllocError>
        ensures listed { IfOk result (λ users.
            All (λ user. IfSome user (λ number. has_user number self.now ≡ true)) users.items) }
        ensures confirmed { IfOk result (λ users.
            AreConfirmed L.tells self.now lookup.old lookup.new streams.now users.items) }
    {
        let first = lookup.read(streams)?;
        if !self.has_any_of(&first) {
            return nobody(alloc, first.len());
        }
        let second = lookup.read(streams)?;
        self.confirmed_users(alloc, &first, &second)
    }

    /// Whether a process of one of these users has one of these sockets.
    fn has_any_of(&self, sockets: &[PeerSocket]) -> bool
        ensures { result ≡ list_any (has_user_of self.now) sockets.now }
    {
        sockets.iter().any(|socket| self.has_user_of(*socket))
    }

    /// Whether a process of one of these users has a socket.
    fn has_user_of(&self, socket: PeerSocket) -> bool
        ensures { result ≡ has_user_of self.now socket }
    {
        match socket {
            PeerSocket::Held { user } => self.has_user(user),
            PeerSocket::Closed | PeerSocket::Unknown => false,
        }
    }

    /// The users of sockets, by what two reads tell of each.
    fn confirmed_users(
        &self,
        alloc: Global,
        first: &[PeerSocket],
        second: &[PeerSocket],
    ) -> Result<Vec<Option<u32>>, AllocError>
        ensures { IfOk result (λ users.
            users.items ≡ confirmed_users self.now first.now second.now) }
    {
        first
            .iter()
            .zip(second)
            .map(|(one, two)| self.confirmed_user(*one, *two))
            .collect(alloc)
    }

    /// The user of a socket, if two reads tell that a process of the same one of these users has it.
    fn confirmed_user(&self, first: PeerSocket, second: PeerSocket) -> Option<u32>
        ensures { result ≡ confirmed_user self.now first second }
    {
        match (first, second) {
            (PeerSocket::Held { user }, PeerSocket::Held { user: again }) => {
                if self.has_user(user) && user == again {
                    Some(user)
                } else {
                    None
                }
            }
            _ => None,
        }
    }
}

/// No user for each of so many sockets.
fn nobody(alloc: Global, count: usize) -> Result<Vec<Option<u32>>, AllocError>
    ensures { IfOk result (λ users. users.items ≡ replicate count None) }
{
    Vec::from_elem(alloc, None, count)
}
