//! Carries out `check` and `replay` over a buffered writer.
ghost use Rattle.std.specs.Prelude.{◌≡◌, [], IfOk, IfSome};
ghost use Rattle.std.specs.Io.Buffered.{writer_buffer, writer_contents, writer_inner};
ghost use Rattle.std.specs.Io.KnownBytes.{Keeps};
ghost use Rattle.bg_script.specs.Checks.{Checks};
ghost use Rattle.bg_script.specs.Scripts.{Replays};

use bg_script::{RunEnd, check, replay};
use std::alloc::Global;
use std::io::{BufWriter, Read, Write};

/// [`check`] over a writer to which it adds a buffer. Returns the exit status, and the writer after
/// all is written. The errors are those of [`check`], `OutOfMemory` if the allocation for the buffer fails,
/// and `WriteFailed` if the last write fails.
pub fn check_buffered<R: Read, W: Write + Drop, E: Write>(
    alloc: Global,
    reader: &mut R,
    writer: W,
    errors: &mut E,
) -> Result<(u8, W), RunEnd>
    ensures { IfOk result (λ done. IfSome (R.remaining reader.old)
        (Checks (W.contents writer) (W.contents done.1) done.0)) }
{
    let mut buffered = buffered(alloc, writer)?;
    let status = check(alloc, reader, &mut buffered, errors)?;
    Ok((status, written_out(buffered)?))
}

/// [`replay`] over a writer to which it adds a buffer. Returns the exit status, and the writer after
/// all is written. The errors are those of [`replay`], `OutOfMemory` if the allocation for the buffer fails,
/// and `WriteFailed` if the last write fails.
pub fn replay_buffered<R: Read, W: Write + Drop, E: Write>(
    alloc: Global,
    seats: u8,
    reader: &mut R,
    writer: W,
    errors: &mut E,
) -> Result<(u8, W), RunEnd>
    ensures { IfOk result (λ done. IfSome (R.remaining reader.old)
        (Replays seats (W.contents writer) (W.contents done.1) done.0)) }
{
    let mut buffered = buffered(alloc, writer)?;
    let status = replay(alloc, seats, reader, &mut buffered, errors)?;
    Ok((status, written_out(buffered)?))
}

fn buffered<W: Write + Drop>(alloc: Global, writer: W) -> Result<BufWriter<W>, RunEnd>
    ensures inner { IfOk result (λ made. writer_inner made ≡ writer) }
    ensures empty { IfOk result (λ made. writer_buffer made ≡ []) }
{
    match BufWriter::new(alloc, writer) {
        Ok(made) => Ok(made),
        Err(_) => Err(RunEnd::OutOfMemory),
    }
}

fn written_out<W: Write + Drop>(buffered: BufWriter<W>) -> Result<W, RunEnd>
    ensures { IfOk result (λ w. Keeps (writer_contents W.contents buffered) (W.contents w)) }
{
    match buffered.into_inner() {
        Ok(writer) => Ok(writer),
        Err(_) => Err(RunEnd::WriteFailed),
    }
}
