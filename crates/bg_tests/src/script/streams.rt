//! Readers and writers that are slow, fail or never end.
use std::io;
use std::io::{ErrorKind, Read, Write};

/// Gives one byte at a time, and is interrupted before each. Fails after this many reads.
#[derive(Drop)]
pub struct Slow<'a> {
    bytes: &'a [u8],
    is_interrupted: bool,
    reads_left: usize,
}

impl<'a> Slow<'a> {
    pub fn new(bytes: &'a [u8], reads_left: usize) -> Slow<'a> {
        Slow {
            bytes,
            is_interrupted: false,
            reads_left,
        }
    }

    /// The bytes that it has not given yet.
    pub fn unread(&self) -> &'a [u8] {
        self.bytes
    }
}

impl Read for Slow<'_> {
    fn read(&mut self, buf: &mut [u8]) -> io::Result<usize> {
        self.is_interrupted = !self.is_interrupted;
        if self.is_interrupted {
            return Err(io::Error::from(ErrorKind::Interrupted));
        }
        if self.reads_left == 0 {
            return Err(io::Error::from(ErrorKind::Other));
        }
        self.reads_left -= 1;
        if buf.is_empty() {
            return Ok(0);
        }
        match self.bytes.split_first() {
            None => Ok(0),
            Some((byte, rest)) => {
                buf[0] = *byte;
                self.bytes = rest;
                Ok(1)
            }
        }
    }
}

/// Is interrupted forever.
#[derive(Drop)]
pub struct Interrupted;

impl Read for Interrupted {
    fn read(&mut self, _buf: &mut [u8]) -> io::Result<usize> {
        Err(io::Error::from(ErrorKind::Interrupted))
    }
}

/// Gives the same byte forever, and counts the bytes that it gave.
#[derive(Drop)]
pub struct Endless {
    byte: u8,
    pub count: usize,
}

impl Endless {
    pub fn of(byte: u8) -> Endless {
        Endless { byte, count: 0 }
    }
}

impl Read for Endless {
    fn read(&mut self, buf: &mut [u8]) -> io::Result<usize> {
        let byte = self.byte;
        for place in buf.iter_mut() {
            *place = byte;
        }
        self.count = self.count.saturating_add(buf.len());
        Ok(buf.len())
    }
}

/// Holds the bytes that were written, one at a time, up to its room. It allocates nothing.
#[derive(Drop)]
pub struct Page {
    bytes: [u8; 1024],
    length: usize,
    ghost in_bounds: { length ≤ 1024 },
}

ghost use Rattle.std.specs.Prelude.{◌≤◌};

impl Page {
    pub fn new() -> Page {
        Page {
            bytes: [0; 1024],
            length: 0,
        }
    }

    pub fn as_slice(&self) -> &[u8] {
        &self.bytes[..self.length]
    }
}

impl Write for Page {
    fn write(&mut self, buf: &[u8]) -> io::Result<usize> {
        if buf.is_empty() || self.length == 1024 {
            return Ok(0);
        }
        self.bytes[self.length] = buf[0];
        self.length += 1;
        Ok(1)
    }

    fn flush(&mut self) -> io::Result<()> {
        Ok(())
    }
}

/// Accepts this many writes, and then fails.
#[derive(Drop)]
pub struct Failing {
    pub writes_left: usize,
}

impl Write for Failing {
    fn write(&mut self, buf: &[u8]) -> io::Result<usize> {
        if self.writes_left == 0 {
            return Err(io::Error::from(ErrorKind::Other));
        }
        self.writes_left -= 1;
        Ok(buf.len())
    }

    fn flush(&mut self) -> io::Result<()> {
        Ok(())
    }
}

/// Accepts each write, and fails to flush.
#[derive(Drop)]
pub struct Unflushed;

impl Write for Unflushed {
    fn write(&mut self, buf: &[u8]) -> io::Result<usize> {
        Ok(buf.len())
    }

    fn flush(&mut self) -> io::Result<()> {
        Err(io::Error::from(ErrorKind::Other))
    }
}
