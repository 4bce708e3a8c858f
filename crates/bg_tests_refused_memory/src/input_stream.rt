//! A connection over memory.

use bg_http::Duplex;
use std::io;
use std::io::{Read, Write};

/// A connection whose other side has sent these bytes, and reads nothing.
#[derive(Drop)]
pub struct InputStream<'a> {
    pub input: &'a [u8],
}

impl Read for InputStream<'_> {
    fn read(&mut self, buf: &mut [u8]) -> io::Result<usize> {
        self.input.read(buf)
    }
}

impl Write for InputStream<'_> {
    fn write(&mut self, buf: &[u8]) -> io::Result<usize> {
        Ok(buf.len())
    }

    fn flush(&mut self) -> io::Result<()> {
        Ok(())
    }
}

impl Duplex for InputStream<'_> {
    fn receive(&mut self, buf: &mut [u8]) -> io::Result<usize> {
        self.read(buf)
    }

    fn send(&mut self, bytes: &[u8]) -> io::Result<()> {
        self.write_all(bytes)
    }
}
