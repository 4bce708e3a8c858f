//! The result of reading the text of a strategy.
ghost use Rattle.std.specs.Prelude.{◌≡◌, ◌≢◌, MatchResult, OnOk};
ghost use Rattle.std.specs.Io.KnownBytes.{Appends};
ghost use Rattle.bg_script.specs.Findings.{finding_text, IsFoundIn, status_of};

use crate::run_end::RunEnd;
use bg_operator::StrategyPart;
use bg_strategy::Strategy;
use bg_strategy_text::{StrategyFault, fault_line, read_with_hints, strategy_lines};
use std::alloc::Global;
use std::io;
use std::io::Write;

/// The result of reading the text of a strategy.
#[derive(Debug, Drop)]
pub enum Finding {
    /// It means this strategy.
    Means(Strategy),
    /// This is its first fault.
    Refused(StrategyFault),
    /// It is larger than the text of a strategy may be.
    TooLarge,
}

impl Finding {
    /// The exit status: 1 after a fault, and otherwise 0.
    pub fn status(&self) -> u8
        ensures { result ≡ status_of self.now }
    {
        match self {
            Finding::Means(_) => 0,
            Finding::Refused(_) | Finding::TooLarge => 1,
        }
    }
}

/// Reads the strategy, and writes hints about its text to `errors`. The only error is an allocation failure.
pub fn finding_in<E: Write>(
    alloc: Global,
    part: &StrategyPart,
    errors: &mut E,
) -> Result<Finding, RunEnd>
    ensures { MatchResult result (IsFoundIn part.now) (λ end. end ≡ RunEnd.OutOfMemory) }
{
    let StrategyPart::Whole(text) = part else {
        return Ok(Finding::TooLarge);
    };
    match read_with_hints(alloc, text, errors) {
        Ok(strategy) => Ok(Finding::Means(strategy)),
        Err(fault) => refused(fault),
    }
}

/// A fault of the text. An allocation failure is an error instead.
fn refused(fault: StrategyFault) -> Result<Finding, RunEnd>
    ensures { MatchResult result
        (λ finding. (finding ≡ Finding.Refused fault) × (fault ≢ StrategyFault.OutOfMemory))
        (λ end. (end ≡ RunEnd.OutOfMemory) × (fault ≡ StrategyFault.OutOfMemory)) }
{
    match fault {
        StrategyFault::OutOfMemory => Err(RunEnd::OutOfMemory),
        _ => Ok(Finding::Refused(fault)),
    }
}

/// Writes the finding. If a write fails, a part of it may have been written.
pub fn write_finding<W: Write>(finding: &Finding, writer: &mut W) -> io::Result<()>
    ensures { OnOk result (Appends (W.contents writer.old) (W.contents writer.new)
        (finding_text finding.now)) }
{
    match finding {
        Finding::Means(strategy) => strategy_lines(strategy, writer),
        Finding::Refused(fault) => fault_line(fault, writer),
        Finding::TooLarge => writeln!(writer, "fault TooLarge"),
    }
}
