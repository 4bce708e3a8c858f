//! The lines that say what a strategy means, or why it is refused.
ghost use Rattle.std.specs.Prelude.{◌≡◌, Some, OnOk, codes, decimal};
ghost use Rattle.std.specs.Io.KnownBytes.{Appends};
ghost use Rattle.bg_strategy_text.specs.Texts.{analysis_text, fault_text, name_or_dash as name_text, number_or_dash, promotion_text, scale_down_text, service_text, size_text, strategy_text};

use crate::fault::StrategyFault;
use crate::table::Field;
use bg_strategy::{ServiceName, Strategy};
use std::io::Write;
use std::{fmt, io};

/// Writes a line for each of the thirteen settings, its name and its value (Argo Rollouts, "Rollout
/// Specification"). If a write fails, a part of them may have been written.
pub fn strategy_lines<W: Write>(strategy: &Strategy, writer: &mut W) -> io::Result<()>
    ensures { OnOk result (Appends (W.contents writer.old) (W.contents writer.new)
        (strategy_text strategy.now)) }
{
    write!(
        writer,
        "{}{}{}{}{}",
        ServiceLines(strategy),
        SizeLines(strategy),
        PromotionLines(strategy),
        ScaleDownLines(strategy),
        AnalysisLines(strategy)
    )
}

/// Writes `fault KIND`, or `fault KIND FIELD` if the fault concerns a field. If a write fails, a
/// part of it may have been written.
pub fn fault_line<W: Write>(fault: &StrategyFault, writer: &mut W) -> io::Result<()>
    ensures { OnOk result (Appends (W.contents writer.old) (W.contents writer.new)
        (fault_text fault.now)) }
{
    let kind = fault.kind_name();
    match fault.field() {
        Some(field) => writeln!(writer, "fault {kind} {}", field.name()),
        None => writeln!(writer, "fault {kind}"),
    }
}

/// The services.
#[derive(Drop)]
struct ServiceLines<'a>(&'a Strategy);

impl fmt::Display for ServiceLines<'_> {
    ghost output = { λ lines. Some (service_text lines.0.now) };

    fn fmt<W: fmt::Write>(&self, f: &mut fmt::Formatter<W>) -> fmt::Result {
        let strategy = self.0;
        writeln!(
            f,
            "{} {}",
            Field::ActiveService,
            strategy.active_service.get()
        )?;
        writeln!(
            f,
            "{} {}",
            Field::PreviewService,
            name_or_dash(&strategy.preview_service)
        )
    }
}

/// The sizes of a revision.
#[derive(Drop)]
struct SizeLines<'a>(&'a Strategy);

impl fmt::Display for SizeLines<'_> {
    ghost output = { λ lines. Some (size_text lines.0.now) };

    fn fmt<W: fmt::Write>(&self, f: &mut fmt::Formatter<W>) -> fmt::Result {
        let strategy = self.0;
        writeln!(f, "{} {}", Field::Replicas, strategy.replicas)?;
        writeln!(
            f,
            "{} {}",
            Field::PreviewReplicaCount,
            strategy.preview_replicas
        )
    }
}

/// When a revision is promoted.
#[derive(Drop)]
struct PromotionLines<'a>(&'a Strategy);

impl fmt::Display for PromotionLines<'_> {
    ghost output = { λ lines. Some (promotion_text lines.0.now) };

    fn fmt<W: fmt::Write>(&self, f: &mut fmt::Formatter<W>) -> fmt::Result {
        let strategy = self.0;
        writeln!(
            f,
            "{} {}",
            Field::AutoPromotionEnabled,
            strategy.auto_promotion
        )?;
        writeln!(
            f,
            "{} {}",
            Field::AutoPromotionSeconds,
            strategy.auto_seconds
        )
    }
}

/// When a revision is scaled down and removed, and the time limit of its requests.
#[derive(Drop)]
struct ScaleDownLines<'a>(&'a Strategy);

impl fmt::Display for ScaleDownLines<'_> {
    ghost output = { λ lines. Some (scale_down_text lines.0.now) };

    fn fmt<W: fmt::Write>(&self, f: &mut fmt::Formatter<W>) -> fmt::Result {
        let strategy = self.0;
        let limit = NumberOrDash(strategy.revision_limit);
        let drain_limit = NumberOrDash(strategy.drain_limit);
        writeln!(f, "{} {}", Field::ScaleDownDelaySeconds, strategy.delay)?;
        writeln!(f, "{} {limit}", Field::ScaleDownDelayRevisionLimit)?;
        writeln!(
            f,
            "{} {}",
            Field::AbortScaleDownDelaySeconds,
            strategy.abort_delay
        )?;
        writeln!(f, "{} {drain_limit}", Field::DrainLimitSeconds)?;
        writeln!(
            f,
            "{} {}",
            Field::RevisionHistoryLimit,
            strategy.history_limit
        )
    }
}

/// Which analyses there are.
#[derive(Drop)]
struct AnalysisLines<'a>(&'a Strategy);

impl fmt::Display for AnalysisLines<'_> {
    ghost output = { λ lines. Some (analysis_text lines.0.now) };

    fn fmt<W: fmt::Write>(&self, f: &mut fmt::Formatter<W>) -> fmt::Result {
        let strategy = self.0;
        writeln!(f, "{} {}", Field::PrePromotionAnalysis, strategy.pre)?;
        writeln!(f, "{} {}", Field::PostPromotionAnalysis, strategy.post)
    }
}

/// The name of a service, or `-` if there is none.
fn name_or_dash(name: &Option<ServiceName>) -> &str
    ensures { result.now ≡ name_text name.now }
{
    match name {
        Some(name) => name.get(),
        None => "-",
    }
}

/// A number, or `-` if there is none.
#[derive(Drop)]
struct NumberOrDash(Option<u32>);

impl fmt::Display for NumberOrDash {
    ghost output = { λ number. Some (number_or_dash number.0) };

    fn fmt<W: fmt::Write>(&self, f: &mut fmt::Formatter<W>) -> fmt::Result {
        match self.0 {
            Some(number) => write!(f, "{number}"),
            None => write!(f, "-"),
        }
    }
}
