//! The line of a chunk.
ghost use Rattle.std.specs.Prelude.{◌≡◌, ◌<◌, ◌≤◌, ℕ, IfOk, IfSome, IfNone, OnErr, length, drop};
ghost use Rattle.bg_http_read.specs.BodyFaults.{LineFails, cut, malformed};
ghost use Rattle.bg_http_read.specs.Chunks.{ReadsLine};

use httparse::{InvalidChunkSize, Status, parse_chunk_size};

/// The most bytes that a chunk's line may have.
const MOST_LINE: usize = 1024;

/// The length in bytes of the chunk's line at the front (RFC 9112 section 7.1), at most 1,024 with its
/// end, and the chunk size that it announces. Gives `None` if there is no complete line yet, and an
/// error if the bytes cannot become a line.
pub fn find_line(bytes: &[u8]) -> Result<Option<(usize, u64)>, InvalidChunkSize>
    ensures within { IfOk result (λ found. IfSome found (λ at.
        (0 < at.0) × (at.0 ≤ length bytes.now))) }
    ensures line { IfOk result (λ found. IfSome found (λ at.
        ReadsLine bytes.now at.1 (drop at.0 bytes.now))) }
    ensures none_yet { IfOk result (λ found. IfNone found (LineFails cut bytes.now)) }
    ensures bad { OnErr result (LineFails malformed bytes.now) }
{
    let front = &bytes[..bytes.len().min(MOST_LINE)];
    match parse_chunk_size(front) {
        Ok(Status::Complete(found)) => Ok(Some(found)),
        Ok(Status::Partial) => {
            if bytes.len() < MOST_LINE {
                return Ok(None);
            }
            Err(InvalidChunkSize)
        }
        Err(_) => Err(InvalidChunkSize),
    }
}
