//! A reader as a stream to which nothing is written.

use bg_http::Duplex;
use std::io;
use std::io::{ErrorKind, Read, Write};

/// A reader as a stream to which nothing is written: each write fails.
#[derive(Drop)]
pub(crate) struct OneWay<'a, R> {
    pub(crate) reader: &'a mut R,
}

impl<R: Read> Read for OneWay<'_, R> {
    ghost remaining = { λ s. R.remaining s.reader.now };

    fn read(&mut self, buf: &mut [u8]) -> io::Result<usize> {
        self.reader.read(buf)
    }
}

impl<R: Read> Write for OneWay<'_, R> {
    fn write(&mut self, _: &[u8]) -> io::Result<usize> {
        Err(io::Error::from(ErrorKind::Unsupported))
    }

    fn flush(&mut self) -> io::Result<()> {
        Ok(())
    }
}

impl<R: Read> Duplex for OneWay<'_, R> {
    fn receive(&mut self, buf: &mut [u8]) -> io::Result<usize> {
        self.reader.read(buf)
    }

    fn send(&mut self, _: &[u8]) -> io::Result<()> {
        Err(io::Error::from(ErrorKind::Unsupported))
    }
}
