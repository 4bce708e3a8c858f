//! A row of the table of sockets.

use crate::end_point::EndPoint;
use crate::lines::{number_of, word_at};

/// The positions of the end points, the state, the user and the inode among the words of a row.
const THEIRS_PLACE: usize = 1;

const OURS_PLACE: usize = 2;

const STATE_PLACE: usize = 3;

const USER_PLACE: usize = 7;

const INODE_PLACE: usize = 9;

/// The states of a socket that is connected, or was until it ended its output: established, and the first and second
/// wait for the end of the other side (`tcp_states.h` of Linux).
const CONNECTED: [&[u8]; 3] = [b"01", b"04", b"05"];

/// What the table tells of a socket.
#[derive(Clone, Copy, PartialEq, Eq, Debug, Drop)]
pub enum PeerSocket {
    /// A process has it, and this user (`uid`) made it.
    Held { user: u32 },
    /// It is listed, and no process has it.
    Closed,
    /// It is not listed, it is not connected, or the table cannot be read. The process may be in another network namespace.
    Unknown,
}

/// The other end of a connection.
#[derive(Clone, Copy, Drop)]
pub(crate) struct Peer {
    pub(crate) end_point: EndPoint,
    pub(crate) socket: PeerSocket,
}

/// The socket of a row, if it is connected to `ours`.
pub(crate) fn peer_of(row: &[u8], ours: EndPoint) -> Option<Peer> {
    if EndPoint::of_word(word_at(row, OURS_PLACE)?) != Some(ours) {
        return None;
    }
    Some(Peer {
        end_point: EndPoint::of_word(word_at(row, THEIRS_PLACE)?)?,
        socket: peer_socket_of(row),
    })
}

/// What a row says of its socket. The table lists a socket that no process has as one of the user 0, without an
/// inode.
fn peer_socket_of(row: &[u8]) -> PeerSocket {
    let (Some(state), Some(user), Some(inode)) = (
        word_at(row, STATE_PLACE),
        word_at(row, USER_PLACE),
        word_at(row, INODE_PLACE),
    ) else {
        return PeerSocket::Unknown;
    };
    if inode == b"0".as_slice() {
        return PeerSocket::Closed;
    }
    match number_of(user) {
        Some(user) if is_connected(state) => PeerSocket::Held { user },
        _ => PeerSocket::Unknown,
    }
}

fn is_connected(state: &[u8]) -> bool {
    CONNECTED.iter().any(|connected| *connected == state)
}
