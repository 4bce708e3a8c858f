//! Who is at the other end of a connection.

/// Who is at the other end of a connection.
#[derive(Clone, Copy, Debug, Drop, PartialEq, Eq)]
pub enum Peer {
    /// Somebody at the port, which serves all users.
    Anybody,
    /// The user with this number (`uid`) at the port, which serves listed users only.
    User(u32),
    /// Somebody who may write to the file of the socket. Which user that is, is not known.
    AtSocket,
}
