//! How often lines are read, and in which order they are given.
ghost use Rattle.std.specs.Prelude.{⊤};

use super::Connections;
use crate::peer::Peer;
use crate::reading::{ReadsLines, WholeLine};
use crate::reply::{AfterReply, Reply};
use std::alloc::{AllocError, Global};
use std::sync::atomic::{AtomicU64, Ordering};
use std::test::Fail;

/// A line of a test.
#[derive(Debug, Drop)]
struct Text {
    bytes: Vec<u8>,
    is_urgent: bool,
}

/// Counts how often it reads a line.
#[derive(Drop)]
struct Counting {
    alloc: Global,
    reads: AtomicU64,
}

impl ReadsLines<Text> for Counting {
    ghost reads = { λ _ _ _. ⊤ };

    ghost puts_first = { λ _ line. line.is_urgent };

    fn read(&self, line: WholeLine<'_>) -> Result<Text, AllocError> {
        self.reads.fetch_add(1, Ordering::SeqCst);
        let bytes = match line {
            WholeLine::Bytes(bytes) => Vec::from_slice(self.alloc, bytes)?,
            WholeLine::TooLong => Vec::from_slice(self.alloc, b"too long")?,
        };
        let is_urgent = bytes.starts_with(b"abort");
        Ok(Text { bytes, is_urgent })
    }

    fn is_urgent(&self, line: &Text) -> bool {
        line.is_urgent
    }
}

/// Bytes that come at once.
const PIECE: [u8; 8_192] = [b'x'; 8_192];

const OK: Reply = Reply {
    bytes: b"ok 0\n",
    after: AfterReply::GoesOn,
};

/// Each line is read once, however it comes and however often its connection is looked at, and an urgent line goes first.
#[test]
fn each_line_is_read_once(rt: HostRuntime) -> Result<(), Fail> {
    let reader = Counting {
        alloc: rt.alloc(),
        reads: AtomicU64::new(0),
    };
    let mut connections = Connections::<Text>::new(rt.alloc())?;
    let (Some(one), Some(other)) = (
        connections.add(Peer::Anybody, 0),
        connections.add(Peer::AtSocket, 0),
    ) else {
        panic!(rt; "no room for two connections");
    };
    for piece in ["prom", "ote\ntick 1\n"] {
        connections.came(one, piece.as_bytes(), 1)?;
        connections.read(&reader, one, 1)?;
        connections.read(&reader, one, 1)?;
    }
    connections.came(other, b"abort\n", 2)?;
    connections.read(&reader, other, 2)?;
    assert_eq!(rt; reader.reads.load(Ordering::SeqCst), 2);
    for (expected, peer, next) in [
        ("abort\n", Peer::AtSocket, ""),
        ("promote\n", Peer::Anybody, "long"),
        ("tick 1\n", Peer::Anybody, ""),
    ] {
        let Some(asked) = connections.take_line() else {
            panic!(rt; "no line waits");
        };
        assert_eq!(rt; asked.line.bytes.as_slice(), expected.as_bytes());
        assert_eq!(rt; asked.asker.peer(), peer);
        let key = asked.asker.key;
        connections.replied(key, OK, OK.bytes.len(), 3)?;
        connections.read(&reader, key, 3)?;
        if next == "long" {
            connections.came(other, &PIECE, 3)?;
            connections.came(other, b"x\n", 3)?;
            connections.read(&reader, other, 3)?;
        }
    }
    let Some(asked) = connections.take_line() else {
        panic!(rt; "no line waits");
    };
    assert_eq!(rt; asked.line.bytes.as_slice(), b"too long".as_slice());
    assert!(rt; connections.take_line().is_none());
    assert_eq!(rt; reader.reads.load(Ordering::SeqCst), 4);
    Ok(())
}
