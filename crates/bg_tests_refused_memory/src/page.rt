//! A text that is written without an allocation.
ghost use Rattle.std.specs.Prelude.{◌≤◌};

use std::fmt::{Display, Write};
use std::io::ErrorKind;
use std::{fmt, io, str};

/// The maximum length of a text in bytes.
const ROOM: usize = 4096;

/// A text in its own fixed memory, so that it needs no allocation.
#[derive(Drop)]
pub struct Page {
    bytes: [u8; 4096],
    length: usize,
    ghost in_bounds: { length ≤ 4096 },
}

impl Page {
    /// A page without a text.
    pub fn new() -> Page {
        Page {
            bytes: [0; 4096],
            length: 0,
        }
    }

    /// The display of the value. An error if it is longer than a page.
    pub fn of<S: Display>(value: &S) -> Result<Page, fmt::Error> {
        let mut page = Page::new();
        write!(page, "{value}")?;
        Ok(page)
    }

    /// The text's bytes.
    pub fn as_slice(&self) -> &[u8] {
        &self.bytes[..self.length]
    }

    /// Appends bytes to the text if there is room for them. Returns whether there is.
    fn append(&mut self, bytes: &[u8]) -> bool {
        if bytes.len() > ROOM - self.length {
            return false;
        }
        let end = self.length + bytes.len();
        self.bytes[self.length..end].copy_from_slice(bytes);
        self.length = end;
        true
    }
}

impl Display for Page {
    fn fmt<W: Write>(&self, f: &mut fmt::Formatter<W>) -> fmt::Result {
        match str::from_utf8(self.as_slice()) {
            Ok(text) => f.write_str(text),
            Err(_) => Err(fmt::Error),
        }
    }
}

impl Write for Page {
    fn write_str(&mut self, text: &str) -> fmt::Result {
        if self.append(text.as_bytes()) {
            Ok(())
        } else {
            Err(fmt::Error)
        }
    }
}

impl io::Write for Page {
    fn write(&mut self, bytes: &[u8]) -> io::Result<usize> {
        if self.append(bytes) {
            Ok(bytes.len())
        } else {
            Err(io::Error::from(ErrorKind::WriteZero))
        }
    }

    fn flush(&mut self) -> io::Result<()> {
        Ok(())
    }
}
