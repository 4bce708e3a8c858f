//! The strategy that a journal names.
ghost use Rattle.std.specs.Prelude.{◌≡◌, ◌≢◌, [], IfErr, IfNone, IfOk, IfSome};
ghost use Rattle.bg_order_journal.specs.Refusals.{FailsToName, WasRead};

use crate::opens_journal::OpensJournal;
use crate::rows::open_rows;
use crate::start_fault::StartFault;
use bg_strategy::{ServiceName, Strategy};
use bg_strategy_text::Field;
use sqlite::Alter;
use std::alloc::{AllocError, Global};

/// What the lines of settings have for a name or a number that is not set.
const NONE: &str = "-";

/// The greatest number of endpoints of a revision.
const MOST_REPLICAS: u32 = 64;

/// The strategy that the first row of a journal names; `None` if the journal has no rows. [`open_journal`](crate::open_journal)
/// judges whether the row is exactly that of this strategy.
pub fn recorded_strategy<S: Alter + Drop, O: OpensJournal<S>>(
    alloc: Global,
    opener: &O,
) -> Result<Option<Strategy>, StartFault>
    ensures some { IfOk result (λ found. IfSome found (λ _. WasRead S.Store (λ rows. rows ≢ []))) }
    ensures empty { IfOk result (λ found. IfNone found (WasRead S.Store (λ rows. rows ≡ []))) }
    ensures fault { IfErr result (FailsToName S.Store (O.fails opener.now)) }
{
    let (_journal, rows) = open_rows(alloc, opener)?;
    let Some(row) = rows.first() else {
        return Ok(None);
    };
    let Some(settings) = settings_in(row.as_str()) else {
        return Err(StartFault::NoStrategy);
    };
    Ok(Some(settings.strategy(alloc)?))
}

/// The settings of a strategy, as the lines of a journal have them.
#[derive(Clone, Copy, Drop)]
struct Settings<'a> {
    active_service: &'a str,
    preview_service: Option<&'a str>,
    replicas: u32,
    preview_replicas: u32,
    auto_promotion: bool,
    auto_seconds: u32,
    delay: u32,
    revision_limit: Option<u32>,
    abort_delay: u32,
    drain_limit: Option<u32>,
    history_limit: u32,
    pre: bool,
    post: bool,
}

impl Settings<'_> {
    /// The strategy with these settings. Numbers of endpoints out of range become the next one in range.
    fn strategy(self, alloc: Global) -> Result<Strategy, AllocError> {
        let replicas = self.replicas.max(1).min(MOST_REPLICAS);
        let preview_replicas = self.preview_replicas.max(1).min(replicas);
        let preview_service = match self.preview_service {
            Some(name) => Some(ServiceName::new(alloc, name)?),
            None => None,
        };
        Ok(Strategy {
            active_service: ServiceName::new(alloc, self.active_service)?,
            preview_service,
            replicas,
            preview_replicas,
            auto_promotion: self.auto_promotion,
            auto_seconds: self.auto_seconds,
            pre: self.pre,
            post: self.post,
            delay: self.delay,
            revision_limit: self.revision_limit,
            abort_delay: self.abort_delay,
            drain_limit: self.drain_limit,
            history_limit: self.history_limit,
        })
    }
}

/// The settings that the lines of a row begin with, in the order in which they are written.
fn settings_in(row: &str) -> Option<Settings<'_>> {
    let mut lines = SettingLines { rest: row };
    Some(Settings {
        active_service: lines.text(Field::ActiveService)?,
        preview_service: lines.name(Field::PreviewService)?,
        replicas: lines.number(Field::Replicas)?,
        preview_replicas: lines.number(Field::PreviewReplicaCount)?,
        auto_promotion: lines.boolean(Field::AutoPromotionEnabled)?,
        auto_seconds: lines.number(Field::AutoPromotionSeconds)?,
        delay: lines.number(Field::ScaleDownDelaySeconds)?,
        revision_limit: lines.limit(Field::ScaleDownDelayRevisionLimit)?,
        abort_delay: lines.number(Field::AbortScaleDownDelaySeconds)?,
        drain_limit: lines.limit(Field::DrainLimitSeconds)?,
        history_limit: lines.number(Field::RevisionHistoryLimit)?,
        pre: lines.boolean(Field::PrePromotionAnalysis)?,
        post: lines.boolean(Field::PostPromotionAnalysis)?,
    })
}

/// The lines of a row that were not read yet.
#[derive(Drop)]
struct SettingLines<'a> {
    rest: &'a str,
}

impl<'a> SettingLines<'a> {
    /// The text of the next line behind the name of its field; `None` if it is not the line of this field.
    fn text(&mut self, field: Field) -> Option<&'a str> {
        let (line, rest) = self.rest.split_once('\n')?;
        self.rest = rest;
        line.strip_prefix(field.name())?.strip_prefix(' ')
    }

    /// A name, or none.
    fn name(&mut self, field: Field) -> Option<Option<&'a str>> {
        let text = self.text(field)?;
        Some(if text == NONE { None } else { Some(text) })
    }

    fn number(&mut self, field: Field) -> Option<u32> {
        self.text(field)?.parse::<u32>().ok()
    }

    /// A number, or none.
    fn limit(&mut self, field: Field) -> Option<Option<u32>> {
        match self.name(field)? {
            Some(text) => Some(Some(text.parse::<u32>().ok()?)),
            None => Some(None),
        }
    }

    fn boolean(&mut self, field: Field) -> Option<bool> {
        match self.text(field)? {
            "true" => Some(true),
            "false" => Some(false),
            _ => None,
        }
    }
}
