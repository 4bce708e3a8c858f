//! A stream that is read and written, for example a client's connection.
ghost use Rattle.std.specs.Prelude.{OnOk};
ghost use Rattle.std.specs.Io.KnownBytes.{Appends, Keeps, ReadConsumes};

use std::io;
use std::io::{Read, Write};

/// The number of turns after which a loop over a stream gives up.
pub const MOST_TURNS: u32 = 1 << 24;

/// A stream whose reads do not change what was written to it, and whose writes do not change what
/// is still to be read. `Read` and `Write` promise nothing about the other side, so a caller who
/// does both could know neither side in full.
pub trait Duplex: Read + Write {
    /// Reads some bytes into the front of `buf`, as `read` does, and gives their number.
    fn receive(&mut self, buf: &mut [u8]) -> io::Result<usize>
        ensures bytes { ReadConsumes (Self.remaining self.old) (Self.remaining self.new) result
            buf.new }
        ensures kept { Keeps (Self.contents self.old) (Self.contents self.new) };

    /// Writes all bytes, as `write_all` does.
    fn send(&mut self, bytes: &[u8]) -> io::Result<()>
        ensures bytes { OnOk result (Appends (Self.contents self.old) (Self.contents self.new)
            bytes.now) }
        ensures kept { Keeps (Self.remaining self.old) (Self.remaining self.new) };
}
