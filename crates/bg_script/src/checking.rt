//! `check`: the meaning of a strategy.
ghost use Rattle.std.specs.Prelude.{IfOk, IfSome};
ghost use Rattle.bg_script.specs.Checks.{Checks};
ghost use Rattle.bg_script.specs.Findings.{IsFinding};

use crate::finding::{Finding, finding_in, write_finding};
use crate::run_end::RunEnd;
use bg_operator::whole_input;
use std::alloc::Global;
use std::io::{BufReader, Read, Write};

/// Reads the whole input as the JSON text of a strategy, and writes a line for each of its
/// settings, or its first fault. Returns the exit status: 0, or 1 after a fault.
///
/// Hints about the text go to `errors`: where it is not valid JSON, and which keys of `blueGreen` look misspelt. An error
/// of `errors` changes nothing. The answer to an input above 1,048,576 bytes is `fault TooLarge`; it is not read to its end. If
/// a read, a write or an allocation fails, the output up to then must not be used.
pub fn check<R: Read, W: Write, E: Write>(
    alloc: Global,
    reader: &mut R,
    writer: &mut W,
    errors: &mut E,
) -> Result<u8, RunEnd>
    ensures { IfOk result (λ status. IfSome (R.remaining reader.old)
        (Checks (W.contents writer.old) (W.contents writer.new) status)) }
{
    let finding = finding_of_input(alloc, reader, errors)?;
    write_finding(&finding, writer)?;
    Ok(finding.status())
}

/// The finding for the whole input, read as the JSON text of a strategy. An input above 1,048,576
/// bytes is too large, and is not read to its end. Hints about the text go to `errors`, as with [`check`].
pub fn finding_of_input<R: Read, E: Write>(
    alloc: Global,
    reader: &mut R,
    errors: &mut E,
) -> Result<Finding, RunEnd>
    ensures { IfOk result (λ finding. IfSome (R.remaining reader.old) (IsFinding finding)) }
{
    let Ok(mut input) = BufReader::new(alloc, reader) else {
        return Err(RunEnd::OutOfMemory);
    };
    let part = whole_input(alloc, &mut input)?;
    finding_in(alloc, &part, errors)
}
