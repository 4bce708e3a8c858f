//! A stream over memory.
ghost use Rattle.std.specs.Prelude.{◌≡◌, [], Some};

use crate::stream::Duplex;
use std::alloc::Global;
use std::io;
use std::io::{Read, Write};

/// A stream over memory. Its bytes come from a slice, and it keeps the bytes that are written to
/// it. So both sides of a call over it are known.
#[derive(Drop)]
pub struct MemoryStream<'a> {
    /// The bytes that are still to be read.
    pub input: &'a [u8],
    /// The bytes that were written.
    pub written: Vec<u8>,
}

impl<'a> MemoryStream<'a> {
    /// A stream that gives these bytes and to which nothing was written yet.
    pub fn new(alloc: Global, input: &'a [u8]) -> MemoryStream<'a>
        ensures input { result.input.now ≡ input.now }
        ensures written { result.written.items ≡ [] }
    {
        MemoryStream {
            input,
            written: Vec::new(alloc),
        }
    }
}

impl Read for MemoryStream<'_> {
    ghost remaining = { λ memory. Some memory.input.now };

    fn read(&mut self, buf: &mut [u8]) -> io::Result<usize> {
        self.input.read(buf)
    }
}

impl Write for MemoryStream<'_> {
    ghost contents = { λ memory. Some memory.written.items };

    fn write(&mut self, buf: &[u8]) -> io::Result<usize> {
        self.written.write(buf)
    }

    fn flush(&mut self) -> io::Result<()> {
        Ok(())
    }
}

impl Duplex for MemoryStream<'_> {
    fn receive(&mut self, buf: &mut [u8]) -> io::Result<usize> {
        self.input.read(buf)
    }

    fn send(&mut self, bytes: &[u8]) -> io::Result<()> {
        self.written.write_all(bytes)
    }
}
