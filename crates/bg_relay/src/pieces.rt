//! The pieces of a body as they are written.
ghost use Rattle.std.specs.Prelude.{◌≡◌, ◌<◌, length, false, true, OnErr, OnOk};
ghost use Rattle.std.specs.Char.{digit_char};
ghost use Rattle.bg_relay.specs.Pieces.{Appends, Grows, IsPiece, IsSize};
ghost use Rattle.bg_relay.specs.declared.framing.Framing.TheVariants as framing;

use crate::framing::Framing;
use std::alloc::AllocError;

/// The end of a line.
const LINE_END: &[u8] = b"\r\n";

/// The last chunk, without trailers (RFC 9112 section 7.1).
const LAST_CHUNK: &[u8] = b"0\r\n\r\n";

/// Appends a piece of a body, and its end if the piece is the last one: of a chunked body a chunk, if there are bytes, and the last
/// chunk. An allocation failure changes nothing.
pub(crate) fn push_piece(
    text: &mut Vec<u8>,
    framing: Framing,
    bytes: &[u8],
    is_last: bool,
) -> Result<(), AllocError>
    ensures piece { OnOk result
        (Appends (IsPiece framing is_last bytes.now) text.old.items text.new.items) }
    ensures kept { OnErr result (text.new.items ≡ text.old.items) }
{
    let start = text.len();
    let pushed = match framing {
        Framing::Length(_) | Framing::ToTheEnd => text.extend_from_slice(bytes),
        Framing::Chunks => push_chunks(text, bytes, is_last),
    };
    if pushed.is_err() {
        text.truncate(start);
    }
    pushed
}

/// Appends a chunk with these bytes, if there are any, and the last chunk if they are the last ones.
fn push_chunks(text: &mut Vec<u8>, bytes: &[u8], is_last: bool) -> Result<(), AllocError>
    ensures piece { OnOk result
        (Appends (IsPiece framing.Chunks is_last bytes.now) text.old.items text.new.items) }
    ensures grows { Grows text.old.items text.new.items }
{
    push_data(text, bytes)?;
    if !is_last {
        return Ok(());
    }
    text.extend_from_slice(LAST_CHUNK)
}

/// Appends a chunk with these bytes, if there are any.
fn push_data(text: &mut Vec<u8>, bytes: &[u8]) -> Result<(), AllocError>
    ensures piece { OnOk result
        (Appends (IsPiece framing.Chunks false bytes.now) text.old.items text.new.items) }
    ensures grows { Grows text.old.items text.new.items }
{
    if bytes.is_empty() {
        return Ok(());
    }
    push_size(text, bytes.len())?;
    text.extend_from_slice(LINE_END)?;
    text.extend_from_slice(bytes)?;
    text.extend_from_slice(LINE_END)
}

/// Appends a size in hexadecimal digits, without zeros in front.
fn push_size(text: &mut Vec<u8>, size: usize) -> Result<(), AllocError>
    ensures size { OnOk result (Appends (IsSize size) text.old.items text.new.items) }
    ensures grows { Grows text.old.items text.new.items }
{
    if size < 16 {
        return text.extend_from_slice(&[digit(size)]);
    }
    push_size(text, size / 16)?;
    text.extend_from_slice(&[digit(size % 16)])
}

/// The hexadecimal digit for a number.
fn digit(number: usize) -> u8
    requires { number < 16 }
    ensures { result ≡ digit_char number }
{
    if number < 10 {
        b'0' + number as u8
    } else {
        b'a' - 10 + number as u8
    }
}
