//! Bytes that were read from a stream and not yet taken.
ghost use Rattle.std.specs.Prelude.{◌≡◌, ◌<◌, ◌≤◌, ◌++◌, [], IfSome, IsTrue, OnErr, OnOk};
ghost use Rattle.std.specs.Prelude.{List, ℕ, drop, length, take};
ghost use Rattle.std.specs.Io.KnownBytes.{Consumes, IsAtEnd, Keeps};
ghost use Rattle.bg_http.specs.Codings.{is_empty};
ghost use Rattle.bg_http_read.specs.Streams.{CameStraight, waiting};

use crate::arrival::Straight;
use bg_http::{Duplex, MOST_TURNS};
use memchr::memchr;
use std::alloc::{AllocError, Global};
use std::io::{ErrorKind, Read};

/// The number of bytes that one read asks for.
pub(crate) const PIECE: usize = 8192;

/// Makes one read, and repeats it if it is interrupted. Gives the number of bytes, or `None` if the
/// read fails.
fn read_piece<S: Duplex>(stream: &mut S, piece: &mut [u8]) -> Option<usize>
    ensures fits { IfSome result (λ count. count ≤ length piece.new) }
    ensures bytes { IfSome result (λ count.
        Consumes (S.remaining stream.old) (S.remaining stream.new) (take count piece.new)) }
    ensures end { IfSome result (λ count. count ≡ 0 → 0 < length piece.old
        → IsAtEnd (S.remaining stream.new)) }
    ensures size { length piece.new ≡ length piece.old }
    ensures kept { Keeps (S.contents stream.old) (S.contents stream.new) }
{
    for _ in 0..MOST_TURNS {
        match stream.receive(piece) {
            Ok(count) => return Some(count.min(piece.len())),
            Err(error) => {
                if error.kind() != ErrorKind::Interrupted {
                    return None;
                }
            }
        }
    }
    None
}

/// Reads at least once, and goes on as long as the bytes do not end a line and are fewer than
/// `line`. Gives the number of bytes, or `None` if a read fails.
pub(crate) fn read_line_piece<S: Duplex>(
    stream: &mut S,
    piece: &mut [u8],
    line: usize,
) -> Option<usize>
    ensures fits { IfSome result (λ count. count ≤ length piece.new) }
    ensures bytes { IfSome result (λ count.
        Consumes (S.remaining stream.old) (S.remaining stream.new) (take count piece.new)) }
    ensures end { IfSome result (λ count. count ≡ 0 → 0 < length piece.old
        → IsAtEnd (S.remaining stream.new)) }
    ensures size { length piece.new ≡ length piece.old }
    ensures kept { Keeps (S.contents stream.old) (S.contents stream.new) }
{
    let most = line.min(piece.len());
    let mut count = 0;
    for _ in 0..MOST_TURNS {
        let last = read_piece(stream, &mut piece[count..])?;
        let start = count;
        count += last;
        if last == 0 || count >= most || memchr(b'\n', &piece[start..count]).is_some() {
            return Some(count);
        }
    }
    None
}

/// Makes one read of at most `most` bytes, and appends them to a vector. Makes no read if `most` is
/// 0 or the allocation fails.
pub(crate) fn read_behind<S: Duplex>(stream: &mut S, bytes: &mut Vec<u8>, most: usize) -> Straight
    ensures came { (came : List ℕ) × (bytes.new.items ≡ bytes.old.items ++ came)
        × (length came ≤ most) × CameStraight result came (S.remaining stream.old)
        (S.remaining stream.new) }
    ensures kept { Keeps (S.contents stream.old) (S.contents stream.new) }
{
    let start = bytes.len();
    let end = start + most.min(PIECE);
    if most == 0 || bytes.resize(end, 0).is_err() {
        return Straight::Unread;
    }
    match read_piece(stream, &mut bytes[start..]) {
        Some(count) => {
            bytes.truncate(start + count);
            Straight::Came(count)
        }
        None => {
            bytes.truncate(start);
            Straight::Failed
        }
    }
}

/// The bytes after the first `count`.
pub(crate) fn behind(bytes: &[u8], count: usize) -> &[u8]
    requires { count ≤ length bytes.now }
    ensures { result.now ≡ drop count bytes.now }
{
    &bytes[count..]
}

/// Bytes that were read from a stream and not yet taken.
#[derive(Drop)]
pub(crate) struct Intake {
    bytes: Vec<u8>,
    taken: usize,
}

impl Intake {
    /// No bytes.
    pub(crate) fn new(alloc: Global) -> Intake
        ensures { waiting result ≡ [] }
    {
        Intake {
            bytes: Vec::new(alloc),
            taken: 0,
        }
    }

    /// The bytes that wait.
    pub(crate) fn get(&self) -> &[u8]
        ensures { result.now ≡ waiting self.now }
    {
        match self.bytes.as_slice().get(self.taken..) {
            Some(bytes) => bytes,
            None => &[],
        }
    }

    /// Whether none wait.
    pub(crate) fn is_empty(&self) -> bool
        ensures none { IsTrue result → waiting self.now ≡ [] }
        ensures told { result ≡ is_empty (waiting self.now) }
    {
        self.get().is_empty()
    }

    /// Drops the first `count` of the waiting bytes.
    pub(crate) fn skip(&mut self, count: usize)
        requires { count ≤ length (waiting self.old) }
        ensures { waiting self.new ≡ drop count (waiting self.old) }
    {
        self.taken += count;
    }

    /// Moves the waiting bytes to the front of the memory that holds them.
    fn compact(&mut self)
        ensures bytes { waiting self.new ≡ waiting self.old }
        ensures front { self.new.taken ≡ 0 }
    {
        if self.taken == 0 {
            return;
        }
        if self.taken >= self.bytes.len() {
            self.bytes.clear();
            self.taken = 0;
            return;
        }
        let taken = self.taken;
        let left = self.bytes.len() - taken;
        self.bytes.rotate_left(taken);
        self.bytes.truncate(left);
        self.taken = 0;
    }

    /// Appends bytes to those that wait. An allocation failure changes nothing.
    pub(crate) fn add(&mut self, bytes: &[u8]) -> Result<(), AllocError>
        ensures added { OnOk result (waiting self.new ≡ waiting self.old ++ bytes.now) }
        ensures kept { OnErr result (waiting self.new ≡ waiting self.old) }
    {
        self.compact();
        self.bytes.extend_from_slice(bytes)
    }
}
