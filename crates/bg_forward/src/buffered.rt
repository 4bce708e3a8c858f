//! A buffer of fixed size for the writes to a stream.
ghost use Rattle.std.specs.Prelude.{◌≡◌, ◌≤◌, [], OnOk, drop, vec_len};
ghost use Rattle.std.specs.Io.KnownBytes.{Keeps};
ghost use Rattle.bg_forward.specs.Buffers.{buffered, held, stream_of};

use bg_http::MOST_TURNS;
use std::alloc::Global;
use std::io;
use std::io::{ErrorKind, Write};

/// The size of the buffer in bytes.
const ROOM: usize = 4096;

/// A stream whose writes are buffered, up to 4,096 bytes. The buffer is written before bytes that do
/// not fit, and at `flush`, so a message head that fits goes out in one write. Buffered bytes are lost when this
/// is dropped.
///
/// std's `BufWriter` drops its writer if an allocation fails. Here each write then goes to the
/// stream at once.
#[derive(Drop)]
pub struct Buffered<S> {
    pub(crate) stream: S,
    held: Vec<u8>,
}

impl<S> Buffered<S> {
    /// A stream with an empty buffer.
    pub fn new(alloc: Global, stream: S) -> Buffered<S>
        ensures stream { stream_of result ≡ stream }
        ensures empty { held result ≡ [] }
    {
        let held = match Vec::with_capacity(alloc, ROOM) {
            Ok(room) => room,
            Err(_) => Vec::new(alloc),
        };
        Buffered { stream, held }
    }

    /// The stream.
    pub fn get_ref(&self) -> &S
        ensures { result.now ≡ stream_of self.now }
    {
        &self.stream
    }

    /// The stream without its buffer. Buffered bytes are lost.
    pub fn into_inner(self) -> S
        ensures { result ≡ stream_of self }
    {
        let Buffered { stream, held: _ } = self;
        stream
    }
}

impl<S: Write> Buffered<S> {
    /// Writes the buffered bytes to the stream. If that fails, the bytes that were not written stay
    /// buffered.
    fn send_buffered(&mut self) -> io::Result<()>
        ensures bytes { Keeps (buffered S.contents self.old) (buffered S.contents self.new) }
        ensures empty { OnOk result (held self.new ≡ []) }
    {
        for _ in 0..MOST_TURNS {
            if self.held.is_empty() {
                return Ok(());
            }
            match self.stream.write(&self.held) {
                Ok(0) => return Err(io::Error::from(ErrorKind::WriteZero)),
                Ok(count) => remove_front(&mut self.held, count),
                Err(error) => {
                    if error.kind() != ErrorKind::Interrupted {
                        return Err(error);
                    }
                }
            }
        }
        Err(io::Error::from(ErrorKind::TimedOut))
    }
}

fn remove_front(held: &mut Vec<u8>, count: usize)
    requires { count ≤ vec_len held.old }
    ensures { held.new.items ≡ drop count held.old.items }
{
    let left = held.len() - count;
    held.rotate_left(count);
    held.truncate(left);
}

impl<S: Write> Write for Buffered<S> {
    ghost contents = { buffered S.contents };

    fn write(&mut self, bytes: &[u8]) -> io::Result<usize> {
        if bytes.len() > self.held.capacity() - self.held.len() {
            self.send_buffered()?;
        }
        if bytes.len() > self.held.capacity() {
            return self.stream.write(bytes);
        }
        self.held.extend_from_slice(bytes)?;
        Ok(bytes.len())
    }

    fn flush(&mut self) -> io::Result<()>
        ensures bytes { Keeps (buffered S.contents self.old) (buffered S.contents self.new) }
        ensures empty { OnOk result (held self.new ≡ []) }
    {
        self.send_buffered()?;
        self.stream.flush()
    }
}
