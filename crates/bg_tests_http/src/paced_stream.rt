//! A client's connection over memory.
use bg_http::Duplex;
use std::alloc::Global;
use std::io;
use std::io::{ErrorKind, Read, Write};

/// How a stream gives its bytes.
#[derive(Clone, Copy, Drop)]
pub enum Pace {
    /// At most this many bytes in a read.
    UpTo(usize),
    /// One byte in a read, and each read is interrupted once before it.
    InterruptedOnce,
    /// None, because each read is interrupted.
    InterruptedAlways,
}

/// Gives the bytes of its input, and keeps the bytes that were written. It holds the last bytes of
/// the input back until this many bytes were written.
#[derive(Drop)]
pub struct PacedStream<'a> {
    input: &'a [u8],
    held_back: &'a [u8],
    awaited: &'a [u8],
    pace: Pace,
    is_interrupted: bool,
    output: Vec<u8>,
}

impl<'a> PacedStream<'a> {
    pub fn new(alloc: Global, input: &'a [u8], pace: Pace) -> PacedStream<'a> {
        PacedStream::holding_back(alloc, input, b"", b"", pace)
    }

    /// A stream that ends after `input` until as many bytes were written as `awaited` has. Then
    /// `held_back` follows.
    pub fn holding_back(
        alloc: Global,
        input: &'a [u8],
        awaited: &'a [u8],
        held_back: &'a [u8],
        pace: Pace,
    ) -> PacedStream<'a> {
        PacedStream {
            input,
            held_back,
            awaited,
            pace,
            is_interrupted: false,
            output: Vec::new(alloc),
        }
    }

    pub fn written(&self) -> &[u8] {
        self.output.as_slice()
    }

    /// The number of bytes that a read may give; `None` if it is interrupted.
    fn next_count(&mut self) -> Option<usize> {
        match self.pace {
            Pace::UpTo(most) => Some(most),
            Pace::InterruptedOnce => {
                self.is_interrupted = !self.is_interrupted;
                if self.is_interrupted { None } else { Some(1) }
            }
            Pace::InterruptedAlways => None,
        }
    }
}

impl Read for PacedStream<'_> {
    fn read(&mut self, buf: &mut [u8]) -> io::Result<usize> {
        let Some(most) = self.next_count() else {
            return Err(io::Error::from(ErrorKind::Interrupted));
        };
        if self.input.is_empty() && self.output.len() == self.awaited.len() {
            self.input = self.held_back;
            self.held_back = &[];
        }
        let most = most.min(buf.len());
        self.input.read(&mut buf[..most])
    }
}

impl Write for PacedStream<'_> {
    fn write(&mut self, buf: &[u8]) -> io::Result<usize> {
        self.output.write(buf)
    }

    fn flush(&mut self) -> io::Result<()> {
        Ok(())
    }
}

impl Duplex for PacedStream<'_> {
    fn receive(&mut self, buf: &mut [u8]) -> io::Result<usize> {
        self.read(buf)
    }

    fn send(&mut self, bytes: &[u8]) -> io::Result<()> {
        self.output.write_all(bytes)
    }
}
