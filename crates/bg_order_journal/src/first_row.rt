//! The first row of a journal: the strategy, and the first revision.
ghost use Rattle.std.specs.Prelude.{◌≡◌, IfErr, IfOk, IfSome, string_bytes};
ghost use Rattle.bg_history.specs.declared.entry.Entry.TheVariants.{Deploy};
ghost use Rattle.bg_order_journal.specs.FirstRow.{first_row as first_row_of};
ghost use Rattle.bg_order_journal.specs.Refusals.{DeployFaultIs, FirstRowFaultIs};
ghost use Rattle.bg_strategy_text.specs.Texts.{strategy_text};

use crate::start_fault::StartFault;
use bg_history::Entry;
use bg_journal::{TextFault, read_entries, write_entry};
use bg_revisions::{Name, Ports};
use bg_script::FirstRevision;
use bg_strategy::Strategy;
use bg_strategy_text::strategy_lines;
use std::alloc::{AllocError, Global};

/// The number of the first revision.
const FIRST: u64 = 1;

/// The lines of the settings of a strategy. The only error is an allocation failure.
pub fn settings_of(alloc: Global, strategy: &Strategy) -> Result<String, AllocError>
    ensures { IfOk result (λ text. string_bytes text ≡ strategy_text strategy.now) }
{
    let mut bytes = Vec::new(alloc);
    if strategy_lines(strategy, &mut bytes).is_err() {
        return Err(AllocError);
    }
    String::from_utf8(bytes).map_err(|_| AllocError)
}

/// The first row of a journal whose strategy has the lines `settings`. `None` if an allocation fails, or if the revision has no
/// line, which no book is opened with.
pub(crate) fn first_row(alloc: Global, settings: &str, first: &FirstRevision) -> Option<String>
    ensures { IfSome result (λ row. string_bytes row ≡ first_row_of settings.now first.now.name first.now.ports) }
{
    let deploy = Entry::Deploy {
        revision: FIRST,
        name: Name::new(alloc, first.name.get()).ok()?,
        ports: Ports::new(alloc, first.ports.get()).ok()?,
    };
    let mut bytes = Vec::new(alloc);
    bytes.extend_from_slice(settings.as_bytes()).ok()?;
    write_entry(&deploy, &mut bytes).ok()?;
    String::from_utf8(bytes).ok()
}

/// The first revision of a journal with this first row, whose strategy has the lines `settings`.
pub(crate) fn first_revision(
    alloc: Global,
    settings: &str,
    row: &str,
) -> Result<FirstRevision, StartFault>
    ensures text { IfOk result (λ first. row.now ≡ first_row_of settings.now first.name first.ports) }
    ensures fault { IfErr result (FirstRowFaultIs settings.now row.now) }
{
    let Some(rest) = row.strip_prefix(settings) else {
        return Err(StartFault::OtherStrategy);
    };
    let entries = match read_entries(alloc, rest) {
        Ok(entries) => entries,
        Err(TextFault::BadLine(_)) => return Err(StartFault::NoFirstRevision),
        Err(TextFault::OutOfMemory) => return Err(StartFault::OutOfMemory),
    };
    match entries.as_slice() {
        [] => Err(StartFault::NoFirstRevision),
        [entry] => deployed(alloc, entry),
        [_, _, ..] => Err(StartFault::NoFirstRevision),
    }
}

/// The first revision that an entry deploys.
fn deployed(alloc: Global, entry: &Entry) -> Result<FirstRevision, StartFault>
    ensures text { IfOk result (λ first. entry.now ≡ Deploy 1 first.name first.ports) }
    ensures fault { IfErr result (DeployFaultIs entry.now) }
{
    match entry {
        Entry::Deploy {
            revision: FIRST,
            name,
            ports,
        } => Ok(FirstRevision {
            name: Name::new(alloc, name.get())?,
            ports: Ports::new(alloc, ports.get())?,
        }),
        _ => Err(StartFault::NoFirstRevision),
    }
}
