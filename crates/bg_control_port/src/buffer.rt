//! The bytes that are kept of a connection: of its input, and of a reply.
ghost use Rattle.std.specs.Prelude.{◌≡◌, ◌==◌, ◌++◌, [], IfOk, drop, length, position, take};
ghost use Rattle.bg_control_port.specs.Fronts.{front, line_length};
ghost use Rattle.bg_control_port.specs.Lines.{after_break, has_break};
ghost use Rattle.bg_control_port.specs.Steps.{left_by, line_in, whole_of};

use crate::reading::WholeLine;
use std::alloc::{AllocError, Global};
use std::marker::Model;

/// The maximum length of a line, 4,096 bytes, plus a line end of two bytes. If none of this many bytes is a
/// line break, the line is too long.
const LONGEST_LINE: usize = 4098;

/// What is at the front of the input.
#[derive(Clone, Copy, Drop, PartialEq, Eq)]
pub enum Front {
    /// A whole line of this many bytes, with its line end.
    Line(usize),
    /// A part of a line, or nothing.
    Part,
    /// As many bytes as a line may have, without a line break among them.
    TooLong,
}

/// A whole line that can be read.
#[derive(Clone, Copy, Drop, PartialEq, Eq)]
pub enum Found {
    /// The first bytes of the input, this many.
    First(usize),
    /// A line that is too long, and was skipped.
    Skipped,
}

/// Bytes that are taken from the front: of an input that came, or of a reply. Contracts see the list of them.
#[derive(Drop)]
pub struct Buffer {
    bytes: Vec<u8>,
}

impl Model for Buffer {
    ghost use Rattle.std.specs.Prelude.{List, ℕ};

    ghost Value = { List ℕ };

    ghost view = { λ b. b.bytes.items };
}

impl Buffer {
    /// An empty buffer.
    pub fn new(alloc: Global) -> Buffer
        ensures { result ≡ [] }
    {
        Buffer {
            bytes: Vec::new(alloc),
        }
    }

    /// All bytes.
    pub fn bytes(&self) -> &[u8]
        ensures { result.now ≡ self.now }
    {
        &self.bytes
    }

    /// What is at the front. If the input has ended, bytes without a line break are a line.
    pub fn front(&self, has_ended: bool) -> Front
        ensures { result ≡ front has_ended self.now }
    {
        match length_of_line(&self.bytes, has_ended) {
            Some(length) if length <= LONGEST_LINE => Front::Line(length),
            None if self.bytes.len() < LONGEST_LINE => Front::Part,
            _ => Front::TooLong,
        }
    }

    /// The first `count` bytes, or all if there are fewer.
    pub fn first(&self, count: usize) -> &[u8]
        ensures { result.now ≡ take count self.now }
    {
        &self.bytes[..count.min(self.bytes.len())]
    }

    /// Adds bytes at the end. The only error is an allocation failure.
    pub fn add(&mut self, more: &[u8]) -> Result<(), AllocError>
        ensures { IfOk result (λ _. self.new ≡ self.old ++ more.now) }
    {
        self.bytes.extend_from_slice(more)
    }

    /// Removes the first `count` bytes, or all if there are fewer.
    pub fn take(&mut self, count: usize)
        ensures { self.new ≡ drop count self.old }
    {
        self.bytes.drain(..count.min(self.bytes.len()));
    }

    /// A whole line that was found, with its line end.
    pub fn line(&self, found: Found) -> WholeLine<'_>
        ensures { whole_of result ≡ line_in found self.now }
    {
        match found {
            Found::First(count) => WholeLine::Bytes(self.first(count)),
            Found::Skipped => WholeLine::TooLong,
        }
    }

    /// Removes a whole line that was found.
    pub fn take_line(&mut self, found: Found)
        ensures { self.new ≡ left_by found self.old }
    {
        if let Found::First(count) = found {
            self.take(count);
        }
    }

    /// Removes the bytes up to the first line break, or all if there is none. Returns whether there is one.
    pub fn skip_line(&mut self) -> bool
        ensures whole { result ≡ has_break self.old }
        ensures rest { self.new ≡ after_break self.old }
    {
        match line_break(&self.bytes) {
            Some(index) => {
                self.take(index + 1);
                true
            }
            None => {
                self.bytes.clear();
                false
            }
        }
    }
}

/// The number of bytes of the first line, with its line end; `None` if there is no whole line.
fn length_of_line(bytes: &[u8], has_ended: bool) -> Option<usize>
    ensures { result ≡ line_length has_ended bytes.now }
{
    match line_break(bytes) {
        Some(index) => Some(index + 1),
        None if has_ended && !bytes.is_empty() => Some(bytes.len()),
        None => None,
    }
}

/// Where the first line break, LF, stands.
fn line_break(bytes: &[u8]) -> Option<usize>
    ensures { result ≡ position (λ byte. byte == 10) bytes.now }
{
    bytes.iter().position(|byte| *byte == b'\n')
}
