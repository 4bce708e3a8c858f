//! The fixed words of the commands.
ghost use Rattle.std.specs.Prelude.{◌≡◌};
ghost use Rattle.std.specs.Option.{ok_or};
ghost use Rattle.bg_operator.specs.Words.{analyses, meaning_in, results, services};
ghost use Rattle.bg_operator.specs.declared.line_fault.LineFault.TheVariants as line_fault;

use crate::line_fault::LineFault;
use bg_history::{Analysis, AnalysisResult};
use bg_revisions::Service;

/// `active` or `preview`; any other word is `BadWord`.
pub fn service_named(word: &str) -> Result<Service, LineFault>
    ensures { result ≡ ok_or (meaning_in services word.now) line_fault.BadWord }
{
    match word {
        "active" => Ok(Service::Active),
        "preview" => Ok(Service::Preview),
        _ => Err(LineFault::BadWord),
    }
}

/// `pre` or `post`; any other word is `BadWord`.
pub fn analysis_named(word: &str) -> Result<Analysis, LineFault>
    ensures { result ≡ ok_or (meaning_in analyses word.now) line_fault.BadWord }
{
    match word {
        "pre" => Ok(Analysis::Pre),
        "post" => Ok(Analysis::Post),
        _ => Err(LineFault::BadWord),
    }
}

/// `successful`, `failed` or `error`; any other word is `BadWord`.
pub fn result_named(word: &str) -> Result<AnalysisResult, LineFault>
    ensures { result ≡ ok_or (meaning_in results word.now) line_fault.BadWord }
{
    match word {
        "successful" => Ok(AnalysisResult::Successful),
        "failed" => Ok(AnalysisResult::Failed),
        "error" => Ok(AnalysisResult::Error),
        _ => Err(LineFault::BadWord),
    }
}
