//! What reads tell of connections, and whose users they confirm.

use crate::peer_lookup::PeerLookup;
use crate::socket_row::PeerSocket;
use crate::users::Users;
use std::alloc::{AllocError, Global};
use std::test::Fail;

const ROOT: PeerSocket = PeerSocket::Held { user: 0 };

const LISTED: PeerSocket = PeerSocket::Held { user: 7 };

const OTHER: PeerSocket = PeerSocket::Held { user: 8 };

/// A connection of which the first read tells one thing, and each later one another thing.
#[derive(Clone, Copy, Drop)]
struct Told {
    first: PeerSocket,
    second: PeerSocket,
}

impl Told {
    /// What a read tells.
    fn socket(self, is_first: bool) -> PeerSocket {
        if is_first { self.first } else { self.second }
    }
}

/// A list that tells what the connections say.
#[derive(Drop)]
struct FakeLookup {
    alloc: Global,
    /// The number of reads so far.
    reads: u32,
}

impl PeerLookup<Told> for FakeLookup {
    fn read(&mut self, streams: &[Told]) -> Result<Vec<PeerSocket>, AllocError> {
        let is_first = self.reads == 0;
        self.reads = self.reads.saturating_add(1);
        let mut sockets = Vec::new(self.alloc);
        for told in streams {
            sockets.push(told.socket(is_first))?;
        }
        Ok(sockets)
    }
}

/// What the reads tell of a connection, and the user that they confirm, for root and the user 7.
const CASES: [(PeerSocket, PeerSocket, Option<u32>); 14] = [
    (ROOT, ROOT, Some(0)),
    (LISTED, LISTED, Some(7)),
    // its process has closed it while the first read was made
    (ROOT, PeerSocket::Closed, None),
    (ROOT, OTHER, None),
    (ROOT, LISTED, None),
    (ROOT, PeerSocket::Unknown, None),
    // or while the second one was made
    (OTHER, ROOT, None),
    (LISTED, ROOT, None),
    (LISTED, PeerSocket::Closed, None),
    (OTHER, OTHER, None),
    (PeerSocket::Closed, ROOT, None),
    (PeerSocket::Closed, PeerSocket::Closed, None),
    (PeerSocket::Unknown, ROOT, None),
    (PeerSocket::Unknown, PeerSocket::Unknown, None),
];

/// The users that the reads confirm, and the number of reads.
fn confirmed(alloc: Global, streams: &[Told]) -> Result<(Vec<Option<u32>>, u32), Fail> {
    let users = Users::read(alloc, "0, 7")?;
    let mut lookup = FakeLookup { alloc, reads: 0 };
    let confirmed = users.confirmed(alloc, &mut lookup, streams)?;
    Ok((confirmed, lookup.reads))
}

#[test]
fn two_reads_confirm_a_user(rt: HostRuntime) -> Result<(), Fail> {
    let mut streams = Vec::new(rt.alloc());
    for (first, second, expected) in CASES {
        streams.push(Told { first, second })?;
        let (users, _) = confirmed(rt.alloc(), &[Told { first, second }])?;
        assert_eq!(rt;
            users.as_slice(),
            [expected].as_slice(),
            "{first:?} and then {second:?}"
        );
    }
    let (users, reads) = confirmed(rt.alloc(), &streams)?;
    assert_eq!(rt; reads, 2);
    assert_eq!(rt; users.len(), CASES.len());
    for ((_, _, expected), user) in CASES.iter().zip(&users) {
        assert_eq!(rt; user, expected);
    }
    Ok(())
}

#[test]
fn others_cost_one_read(rt: HostRuntime) -> Result<(), Fail> {
    let others = [OTHER, PeerSocket::Closed, PeerSocket::Unknown].map(|first| Told {
        first,
        second: ROOT,
    });
    let (users, reads) = confirmed(rt.alloc(), &others)?;
    assert_eq!(rt; users.as_slice(), [None, None, None].as_slice());
    assert_eq!(rt; reads, 1);
    Ok(())
}
