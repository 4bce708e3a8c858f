//! A body that is fed the bytes as they arrive.
ghost use Rattle.std.specs.Prelude.{◌≡◌, ◌<◌, ◌≤◌, ◌++◌, [], List, ℕ, IfErr, IfOk, IsFalse, OnErr, OnOk};
ghost use Rattle.std.specs.Prelude.{drop, length};
ghost use Rattle.std.specs.Io.KnownBytes.{Keeps};
ghost use Rattle.bg_http_read.specs.Bodies.{Fails, Follows, KeepsLimit, Refuses, Takes, Unchanged};
ghost use Rattle.bg_http_read.specs.Bodies.{can_end, is_whole};
ghost use Rattle.bg_http_read.specs.BodyFaults.{cut};
ghost use Rattle.bg_http_read.specs.BodyFramings.{StartsBody};
ghost use Rattle.bg_http_read.specs.Streams.{CameStraight};
ghost use Rattle.bg_http_read.specs.declared.body.BodyFraming.TheVariants as framing;
ghost use Rattle.bg_http_read.specs.declared.body.BodyStage.TheVariants as stage;

use crate::arrival::Straight;
use crate::chunk_lines::find_line;
use crate::intake::{behind, read_behind};
use crate::message_fault::MessageFault;
use crate::seen::Seen;
use crate::trailers::find_trailers;
use bg_http::{Bytes, Duplex};
use std::alloc::{AllocError, Global};

/// The framing of a body.
#[derive(Clone, Copy, Drop)]
pub enum BodyFraming {
    /// There is no body.
    Empty,
    /// The body is chunked, and has at most this many bytes.
    Chunks(usize),
    /// The body has this many bytes.
    Length(usize),
    /// The body is everything before the end of the input, and has at most this many bytes.
    ToTheEnd(usize),
}

/// The part of a body that comes next.
#[derive(Clone, Copy, Drop)]
pub enum BodyStage {
    /// This many bytes, and then nothing.
    Length(usize),
    /// The line of a chunk.
    Line,
    /// This many bytes of a chunk, CR LF, and the line of the next chunk.
    Data(usize),
    /// Trailers.
    Trailers,
    /// All bytes up to the end of the input.
    ToTheEnd,
    /// Nothing.
    Whole,
}

/// A body that is fed the bytes as they arrive. It takes the bytes that belong to it.
#[derive(Drop)]
pub(crate) struct Body {
    limit: usize,
    stage: BodyStage,
    bytes: Vec<u8>,
}

impl Body {
    /// A body before its first byte. All memory of a body of a known length is allocated at once.
    pub(crate) fn new(alloc: Global, framing: BodyFraming) -> Result<Body, AllocError>
        ensures { IfOk result (StartsBody framing) }
    {
        match framing {
            BodyFraming::Empty => Body::of_length(alloc, 0),
            BodyFraming::Length(size) => Body::of_length(alloc, size),
            BodyFraming::Chunks(limit) => Ok(Body {
                limit,
                stage: BodyStage::Line,
                bytes: Vec::new(alloc),
            }),
            BodyFraming::ToTheEnd(limit) => Ok(Body {
                limit,
                stage: BodyStage::ToTheEnd,
                bytes: Vec::new(alloc),
            }),
        }
    }

    fn of_length(alloc: Global, size: usize) -> Result<Body, AllocError>
        ensures { IfOk result (StartsBody (framing.Length size)) }
    {
        let bytes = Vec::with_capacity(alloc, size)?;
        Ok(Body {
            limit: size,
            stage: BodyStage::Length(size),
            bytes,
        })
    }

    /// The bytes that were taken so far, with their memory.
    pub(crate) fn into_bytes(self) -> Bytes
        ensures { result ≡ self.bytes.items }
    {
        Bytes::from_vec(self.bytes)
    }

    /// Whether the body is complete.
    pub(crate) fn is_whole(&self) -> bool
        ensures { result ≡ is_whole self.now.stage }
    {
        match self.stage {
            BodyStage::Length(left) => left == 0,
            BodyStage::Whole => true,
            BodyStage::Line | BodyStage::Data(_) | BodyStage::Trailers | BodyStage::ToTheEnd =>
                false,
        }
    }

    /// Whether the body may end at the end of the input.
    pub(crate) fn can_end(&self) -> bool
        ensures { result ≡ can_end self.now.stage }
    {
        match self.stage {
            BodyStage::Length(left) => left == 0,
            BodyStage::ToTheEnd | BodyStage::Whole => true,
            BodyStage::Line | BodyStage::Data(_) | BodyStage::Trailers => false,
        }
    }

    /// Makes one read of the missing part of a body whose length is known, directly into the memory
    /// of the body. Appends the bytes that the read gave to those that were seen.
    pub(crate) fn read_from<S: Duplex>(&mut self, stream: &mut S, seen: &mut Seen) -> Straight
        requires { KeepsLimit self.old }
        ensures came { (came : List ℕ) × (seen.new.bytes ≡ seen.old.bytes ++ came)
            × Follows self.old came self.new [] × CameStraight result came (S.remaining stream.old)
            (S.remaining stream.new) }
        ensures kept { Keeps (S.contents stream.old) (S.contents stream.new) }
        ensures within { KeepsLimit self.new }
        ensures limit { self.new.limit ≡ self.old.limit }
    {
        let BodyStage::Length(left) = self.stage else {
            return Straight::Unread;
        };
        let start = self.bytes.len();
        let read = read_behind(stream, &mut self.bytes, left);
        let came = behind(self.bytes.as_slice(), start);
        self.stage = BodyStage::Length(left - came.len());
        seen.add(came);
        read
    }

    /// Takes all bytes that belong to the body, and gives their number. If the body is not complete
    /// then, it needs more bytes; a body that goes to the end of the input has taken them all.
    pub(crate) fn take_from(&mut self, bytes: &[u8]) -> Result<usize, MessageFault>
        requires { KeepsLimit self.old }
        ensures fits { IfOk result (λ count. count ≤ length bytes.now) }
        ensures taken { IfOk result (λ count.
            Follows self.old bytes.now self.new (drop count bytes.now)) }
        ensures wants { OnOk result (IsFalse (can_end self.new.stage)
            → Fails self.old cut bytes.now) }
        ensures empty { IfOk result (λ count. self.new.stage ≡ stage.ToTheEnd
            → drop count bytes.now ≡ []) }
        ensures refused { IfErr result (λ fault. Refuses self.old bytes.now fault) }
        ensures within { KeepsLimit self.new }
        ensures limit { self.new.limit ≡ self.old.limit }
    {
        let mut at = 0;
        loop {
            let count = self.take(behind(bytes, at))?;
            if count == 0 {
                return Ok(at);
            }
            at += count;
        }
    }

    /// Takes bytes from the front, and gives their number: 0 if the body needs more bytes than
    /// these, or is complete. An allocation failure changes nothing.
    pub(crate) fn take(&mut self, bytes: &[u8]) -> Result<usize, MessageFault>
        requires { KeepsLimit self.old }
        ensures taken { IfOk result (λ count. Takes self.old self.new bytes.now count) }
        ensures refused { IfErr result (λ fault. Refuses self.old bytes.now fault) }
        ensures kept { OnErr result (Unchanged self.old self.new) }
        ensures within { KeepsLimit self.new }
    {
        match self.stage {
            BodyStage::Length(left) => self.take_length(bytes, left),
            BodyStage::Line => self.take_line(bytes),
            BodyStage::Data(0) => self.take_line_end(bytes),
            BodyStage::Data(left) => self.take_data(bytes, left),
            BodyStage::Trailers => self.take_trailers(bytes),
            BodyStage::ToTheEnd => self.take_all(bytes),
            BodyStage::Whole => Ok(0),
        }
    }

    /// Takes the available bytes of a body whose length is known.
    fn take_length(&mut self, bytes: &[u8], left: usize) -> Result<usize, MessageFault>
        requires stage { self.old.stage ≡ stage.Length left }
        requires within { KeepsLimit self.old }
        ensures taken { IfOk result (λ count. Takes self.old self.new bytes.now count) }
        ensures refused { IfErr result (λ fault. Refuses self.old bytes.now fault) }
        ensures kept { OnErr result (Unchanged self.old self.new) }
        ensures within { KeepsLimit self.new }
    {
        let count = bytes.len().min(left);
        self.bytes.extend_from_slice(&bytes[..count])?;
        self.stage = BodyStage::Length(left - count);
        Ok(count)
    }

    /// Takes the line of a chunk if it is complete.
    fn take_line(&mut self, bytes: &[u8]) -> Result<usize, MessageFault>
        requires stage { self.old.stage ≡ stage.Line }
        requires within { KeepsLimit self.old }
        ensures taken { IfOk result (λ count. Takes self.old self.new bytes.now count) }
        ensures refused { IfErr result (λ fault. Refuses self.old bytes.now fault) }
        ensures kept { OnErr result (Unchanged self.old self.new) }
        ensures within { KeepsLimit self.new }
    {
        let found = match find_line(bytes) {
            Ok(found) => found,
            Err(_) => return Err(MessageFault::Bad),
        };
        let Some((count, size)) = found else {
            return Ok(0);
        };
        if size > (self.limit - self.bytes.len()) as u64 {
            return Err(MessageFault::TooLarge);
        }
        if size == 0 {
            self.stage = BodyStage::Trailers;
            return Ok(count);
        }
        self.stage = BodyStage::Data(size as usize);
        Ok(count)
    }

    /// Takes the available bytes of a chunk's data.
    fn take_data(&mut self, bytes: &[u8], left: usize) -> Result<usize, MessageFault>
        requires stage { self.old.stage ≡ stage.Data left }
        requires some { 0 < left }
        requires within { KeepsLimit self.old }
        ensures taken { IfOk result (λ count. Takes self.old self.new bytes.now count) }
        ensures refused { IfErr result (λ fault. Refuses self.old bytes.now fault) }
        ensures kept { OnErr result (Unchanged self.old self.new) }
        ensures within { KeepsLimit self.new }
    {
        let count = bytes.len().min(left);
        self.bytes.extend_from_slice(&bytes[..count])?;
        self.stage = BodyStage::Data(left - count);
        Ok(count)
    }

    /// Takes the CR LF after a chunk's data.
    fn take_line_end(&mut self, bytes: &[u8]) -> Result<usize, MessageFault>
        requires stage { self.old.stage ≡ stage.Data 0 }
        requires within { KeepsLimit self.old }
        ensures taken { IfOk result (λ count. Takes self.old self.new bytes.now count) }
        ensures refused { IfErr result (λ fault. Refuses self.old bytes.now fault) }
        ensures kept { OnErr result (Unchanged self.old self.new) }
        ensures within { KeepsLimit self.new }
    {
        match bytes {
            [] | [b'\r'] => Ok(0),
            [b'\r', b'\n', ..] => {
                self.stage = BodyStage::Line;
                Ok(2)
            }
            _ => Err(MessageFault::Bad),
        }
    }

    /// Takes the trailers if they are complete.
    fn take_trailers(&mut self, bytes: &[u8]) -> Result<usize, MessageFault>
        requires stage { self.old.stage ≡ stage.Trailers }
        requires within { KeepsLimit self.old }
        ensures taken { IfOk result (λ count. Takes self.old self.new bytes.now count) }
        ensures refused { IfErr result (λ fault. Refuses self.old bytes.now fault) }
        ensures kept { OnErr result (Unchanged self.old self.new) }
        ensures within { KeepsLimit self.new }
    {
        match find_trailers(bytes) {
            Ok(Some(count)) => {
                self.stage = BodyStage::Whole;
                Ok(count)
            }
            Ok(None) => Ok(0),
            Err(_) => Err(MessageFault::Bad),
        }
    }

    /// Takes all bytes.
    fn take_all(&mut self, bytes: &[u8]) -> Result<usize, MessageFault>
        requires stage { self.old.stage ≡ stage.ToTheEnd }
        requires within { KeepsLimit self.old }
        ensures taken { IfOk result (λ count. Takes self.old self.new bytes.now count) }
        ensures refused { IfErr result (λ fault. Refuses self.old bytes.now fault) }
        ensures kept { OnErr result (Unchanged self.old self.new) }
        ensures within { KeepsLimit self.new }
    {
        if bytes.len() > self.limit - self.bytes.len() {
            return Err(MessageFault::TooLarge);
        }
        self.bytes.extend_from_slice(bytes)?;
        Ok(bytes.len())
    }
}
