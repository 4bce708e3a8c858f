//! Reads a reader's bytes piece by piece.
ghost use Rattle.std.specs.Prelude.{◌≡◌, ◌+◌, ◌<◌, ◌≤◌, false, ◌∷◌, length, take, drop, IfOk, OnOk, vec_len};
ghost use Rattle.bg_operator.specs.Lines.{has_break};
ghost use Rattle.bg_operator.specs.Reading.{Known};
ghost use Rattle.bg_operator.specs.Taking.{PassesLine, PassesPiece, TakesLine, TakesPiece};

use crate::read_fault::ReadFault;
use std::io;
use std::io::{BufRead, ErrorKind};

/// The number of turns after which a loop over a reader, for example over the lines of a script or of a
/// connection, gives up.
pub const MOST_TURNS: u32 = 1 << 24;

/// How a line that was read ends.
#[derive(Clone, Copy, Drop)]
pub(crate) enum LineEnd {
    /// With a line break, which was read too.
    Break,
    /// At the end of the input.
    End,
    /// At the limit of the room, before a line break. The rest of the line is unread.
    Room,
}

/// Reads at most `room` bytes of the next line.
pub(crate) fn take_line<B: BufRead>(
    reader: &mut B,
    line: &mut Vec<u8>,
    room: usize,
) -> Result<LineEnd, ReadFault>
    ensures { IfOk result (λ end. Known (B.remaining reader.old) (B.remaining reader.new)
        (TakesLine room end line.new.items)) }
{
    line.clear();
    for _ in 0..MOST_TURNS {
        if line.len() >= room {
            return Ok(LineEnd::Room);
        }
        if let Some(end) = take_piece(reader, line, room)? {
            return Ok(end);
        }
    }
    Err(ReadFault::ReadFailed)
}

/// Reads the next bytes of a line up to and including its line break, at most `room` bytes. Returns
/// how the line ends; `None` if more of it is to come, and after an interrupted read.
fn take_piece<B: BufRead>(
    reader: &mut B,
    line: &mut Vec<u8>,
    room: usize,
) -> Result<Option<LineEnd>, ReadFault>
    requires { vec_len line.old ≤ room }
    ensures taken { IfOk result (λ end. Known (B.remaining reader.old) (B.remaining reader.new)
        (TakesPiece end line.old.items line.new.items)) }
    ensures fits { OnOk result (vec_len line.new ≤ room) }
{
    let piece = match reader.fill_buf() {
        Ok(piece) => piece,
        Err(error) => return after_error(&error, None),
    };
    if piece.is_empty() {
        return Ok(Some(LineEnd::End));
    }
    let at = find_break(piece);
    let free = room - line.len();
    if at < piece.len() && at <= free {
        line.extend_from_slice(&piece[..at])?;
        reader.consume(at + 1);
        return Ok(Some(LineEnd::Break));
    }
    let kept = at.min(free);
    line.extend_from_slice(&piece[..kept])?;
    reader.consume(kept);
    Ok(None)
}

/// This after an interrupted read, which is tried again. A read that failed otherwise is a fault.
pub(crate) fn after_error<T: Drop>(error: &io::Error, nothing: T) -> Result<T, ReadFault>
    ensures { IfOk result (λ value. value ≡ nothing) }
{
    if error.kind() == ErrorKind::Interrupted {
        Ok(nothing)
    } else {
        Err(ReadFault::ReadFailed)
    }
}

/// Skips the rest of a line, piece by piece, with its line break.
pub(crate) fn skip_line<B: BufRead>(reader: &mut B) -> Result<(), ReadFault>
    ensures { OnOk result
        (Known (B.remaining reader.old) (B.remaining reader.new) PassesLine) }
{
    for _ in 0..MOST_TURNS {
        if skip_piece(reader)? {
            return Ok(());
        }
    }
    Err(ReadFault::ReadFailed)
}

/// Skips the next bytes of a line up to and including its line break. Returns whether the line ends
/// there; false if more of it is to come, and after an interrupted read.
fn skip_piece<B: BufRead>(reader: &mut B) -> Result<bool, ReadFault>
    ensures { IfOk result (λ ended. Known (B.remaining reader.old) (B.remaining reader.new)
        (PassesPiece ended)) }
{
    let piece = match reader.fill_buf() {
        Ok(piece) => piece,
        Err(error) => return after_error(&error, false),
    };
    if piece.is_empty() {
        return Ok(true);
    }
    let at = find_break(piece);
    if at < piece.len() {
        reader.consume(at + 1);
        return Ok(true);
    }
    reader.consume(at);
    Ok(false)
}

/// The position of the first line break, or the length if there is none.
fn find_break(bytes: &[u8]) -> usize
    ensures bound { result ≤ length bytes.now }
    ensures none_before { has_break (take result bytes.now) ≡ false }
    ensures found { result < length bytes.now
        → drop result bytes.now ≡ 10 ∷ drop (result + 1) bytes.now }
{
    for (i, byte) in bytes.iter().enumerate() {
        if *byte == b'\n' {
            return i;
        }
    }
    bytes.len()
}
