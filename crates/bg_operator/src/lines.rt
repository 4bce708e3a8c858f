//! The lines of a script.
ghost use Rattle.std.specs.Prelude.{◌≡◌, IfOk};
ghost use Rattle.std.specs.Io.BufRead.{strip_last};
ghost use Rattle.bg_operator.specs.Reading.{Known, Gives};

use crate::read_fault::ReadFault;
use crate::taking::{LineEnd, skip_line, take_line};
use std::io::BufRead;

/// The maximum length of a line in bytes, without its end.
pub(crate) const LONGEST_LINE: usize = 4096;

/// The next part of a reader's input.
#[derive(Clone, Copy, Debug, Drop, PartialEq, Eq)]
pub enum Found {
    /// A line of at most 4,096 bytes.
    Line,
    /// A longer line, which was skipped.
    TooLong,
    /// The end of the input.
    End,
}

/// Reads the next line. A line ends with LF, and one CR directly before the LF belongs to the end.
/// The bytes after the last LF are a line if there are any. If a line is found, `line` holds its
/// bytes without its end.
pub fn next_line<B: BufRead>(reader: &mut B, line: &mut Vec<u8>) -> Result<Found, ReadFault>
    ensures { IfOk result (λ found. Known (B.remaining reader.old) (B.remaining reader.new)
        (Gives found line.new.items)) }
{
    // one byte more than the longest line, and its CR
    match take_line(reader, line, LONGEST_LINE + 2)? {
        LineEnd::Break => strip_return(line),
        LineEnd::End => {
            if line.is_empty() {
                return Ok(Found::End);
            }
        }
        LineEnd::Room => {
            skip_line(reader)?;
            return Ok(Found::TooLong);
        }
    }
    if line.len() > LONGEST_LINE {
        return Ok(Found::TooLong);
    }
    Ok(Found::Line)
}

/// Removes the CR at a line's end, if there is one.
pub(crate) fn strip_return(line: &mut Vec<u8>)
    ensures { line.new.items ≡ strip_last 13 line.old.items }
{
    let length = line.len();
    if length == 0 {
        return;
    }
    if line[length - 1] == b'\r' {
        line.truncate(length - 1);
    }
}
