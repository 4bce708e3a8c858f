//! Lines of other threads for standard error.
ghost use Rattle.std.specs.Prelude.{◌≡◌, ◌++◌, ◌⊎◌};

use std::alloc::Global;
use std::mem;

/// The maximum number of bytes that wait. Further lines are lost.
const MOST_BYTES: usize = 1 << 16;

/// Lines of other threads that the log's writer writes, if the log is standard error. If two threads asked whether
/// standard error takes bytes, and then both wrote, one could be blocked.
#[derive(Drop)]
pub(crate) struct Notices {
    bytes: Vec<u8>,
    /// Whether the writer takes them.
    are_taken: bool,
}

impl Notices {
    /// None wait, and none are taken.
    pub(crate) fn new(alloc: Global) -> Notices {
        Notices {
            bytes: Vec::new(alloc),
            are_taken: false,
        }
    }

    /// Sets whether the writer takes lines from now on.
    pub(crate) fn set_taken(&mut self, are_taken: bool)
        ensures taken { self.new.are_taken ≡ are_taken }
        ensures bytes { self.new.bytes ≡ self.old.bytes }
    {
        self.are_taken = are_taken;
    }

    /// Adds a line, if the writer takes lines. Returns whether it does. A line for which there is no room is lost.
    pub(crate) fn add(&mut self, line: &[u8]) -> bool
        ensures taken { result ≡ self.old.are_taken }
        ensures whole { (self.new.bytes.items ≡ self.old.bytes.items)
            ⊎ (self.new.bytes.items ≡ self.old.bytes.items ++ line.now) }
    {
        if self.are_taken && self.bytes.len().saturating_add(line.len()) <= MOST_BYTES {
            let _ = self.bytes.extend_from_slice(line);
        }
        self.are_taken
    }

    /// Takes all lines.
    pub(crate) fn take(&mut self, alloc: Global) -> Vec<u8>
        ensures { result.items ≡ self.old.bytes.items }
    {
        mem::replace(&mut self.bytes, Vec::new(alloc))
    }
}
