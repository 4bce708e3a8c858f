//! The bytes of the strategy at the front of the input.
ghost use Rattle.std.specs.Prelude.{◌≡◌, ◌≤◌, IfOk, codes, bytes_eq, vec_len};
ghost use Rattle.std.specs.Io.BufRead.{strip_last};
ghost use Rattle.bg_operator.specs.Reading.{Known};
ghost use Rattle.bg_operator.specs.Parting.{IsPart, IsWhole, largest_strategy};
ghost use Rattle.bg_operator.specs.Taking.{Gathers, line_text};

use crate::read_fault::ReadFault;
use crate::taking::{LineEnd, MOST_TURNS, after_error, take_line};
use std::alloc::Global;
use std::io::BufRead;

/// The maximum length in bytes of the text of a strategy.
const LARGEST_STRATEGY: usize = 1 << 20;

/// The text of a strategy.
#[derive(Debug)]
pub enum StrategyPart {
    /// All of its bytes, at most 1,048,576.
    Whole(Vec<u8>),
    /// There are more bytes than a strategy may have. They are not read to their end.
    TooLarge,
}

impl Drop for StrategyPart {
    /// Drops the text by one call, so that the proofs of what owns a part are short (CONTRIBUTING.md, "What a check costs").
    fn drop(self) {
        match self {
            StrategyPart::Whole(_) => {}
            StrategyPart::TooLarge => {}
        }
    }
}

/// Reads all bytes before the first line `---`, and that line. If there is no such line, reads all
/// bytes. After a `ReadFault` the reader must not be used any more.
pub fn part_before_script<B: BufRead>(
    alloc: Global,
    reader: &mut B,
) -> Result<StrategyPart, ReadFault>
    ensures { IfOk result (λ part. Known (B.remaining reader.old) (B.remaining reader.new)
        (IsPart part)) }
{
    let mut part = Vec::new(alloc);
    let mut line = Vec::new(alloc);
    for _ in 0..MOST_TURNS {
        let end = take_line(reader, &mut line, LARGEST_STRATEGY + 1)?;
        if is_mark(&line, end) {
            return Ok(StrategyPart::Whole(part));
        }
        if line.len() > LARGEST_STRATEGY - part.len() {
            return Ok(StrategyPart::TooLarge);
        }
        part.extend_from_slice(&line)?;
        let LineEnd::Break = end else {
            return Ok(StrategyPart::Whole(part));
        };
        if part.len() >= LARGEST_STRATEGY {
            return Ok(StrategyPart::TooLarge);
        }
        part.extend_from_slice(b"\n")?;
    }
    Err(ReadFault::ReadFailed)
}

/// Reads all bytes. After a `ReadFault` the reader must not be used any more.
pub fn whole_input<B: BufRead>(alloc: Global, reader: &mut B) -> Result<StrategyPart, ReadFault>
    ensures { IfOk result (λ part. Known (B.remaining reader.old) (B.remaining reader.new)
        (IsWhole part)) }
{
    let mut whole = Vec::new(alloc);
    for _ in 0..MOST_TURNS {
        let at_end = gather_piece(reader, &mut whole)?;
        if whole.len() > LARGEST_STRATEGY {
            return Ok(StrategyPart::TooLarge);
        }
        if at_end {
            return Ok(StrategyPart::Whole(whole));
        }
    }
    Err(ReadFault::ReadFailed)
}

/// Reads the next bytes, up to one more than a strategy may have. Returns whether the input is at its
/// end; false after an interrupted read.
fn gather_piece<B: BufRead>(reader: &mut B, whole: &mut Vec<u8>) -> Result<bool, ReadFault>
    requires { vec_len whole.old ≤ largest_strategy }
    ensures { IfOk result (λ at_end. Known (B.remaining reader.old) (B.remaining reader.new)
        (Gathers at_end whole.old.items whole.new.items)) }
{
    let piece = match reader.fill_buf() {
        Ok(piece) => piece,
        Err(error) => return after_error(&error, false),
    };
    let at_end = piece.is_empty();
    let kept = piece.len().min(LARGEST_STRATEGY + 1 - whole.len());
    whole.extend_from_slice(&piece[..kept])?;
    reader.consume(kept);
    Ok(at_end)
}

/// Whether a line with this end is the line `---`.
fn is_mark(line: &[u8], end: LineEnd) -> bool
    ensures { result ≡ bytes_eq (line_text end line.now) (codes "---") }
{
    match end {
        LineEnd::Break => without_return(line) == b"---".as_slice(),
        LineEnd::End | LineEnd::Room => line == b"---".as_slice(),
    }
}

/// The line without the CR at its end.
fn without_return(line: &[u8]) -> &[u8]
    ensures { result.now ≡ strip_last 13 line.now }
{
    let length = line.len();
    if length == 0 {
        return line;
    }
    if line[length - 1] == b'\r' {
        return &line[..length - 1];
    }
    line
}
