//! The audit.
ghost use Rattle.std.specs.Prelude.{◌≡◌, ◌↔◌, true, false, length, IfOk, IsTrue, MatchOption};
ghost use Rattle.bg_history.specs.Steps.{IsLegal, is_opening, is_settled, all_allowed};
ghost use Rattle.bg_audit.specs.Openings.{opening_of};
ghost use Rattle.bg_audit.specs.Known.{FactsRepresent};

use crate::facts::Facts;
use crate::fault::AuditFault;
use crate::numbers::{are_given, entry_at};
use bg_history::History;
use bg_history_laws as laws;
use bg_revisions::are_replica_ports;
use bg_strategy::{Strategy, is_dns_label};
use std::alloc::{AllocError, Global};

/// The greatest number of seats of a history.
const MOST_SEATS: usize = 2048;

/// The opening of a history.
#[derive(Clone, Copy, Drop)]
struct AuditedOpening<'a> {
    seats: usize,
    /// The name of revision 1.
    name: &'a str,
    /// The ports of revision 1.
    ports: &'a [u16],
}

/// Whether the history is legal, and no allowed outcome is left undone at its end. The only error is `OutOfMemory`,
/// after an allocation failure.
pub fn audit(alloc: Global, history: &History, strategy: &Strategy) -> Result<bool, AuditFault>
    ensures { IfOk result (λ b. IsTrue b
        ↔ (IsLegal strategy.now history.now.opening history.now.closed history.now.past
        × IsTrue (is_settled strategy.now history.now.past))) }
{
    let opening = AuditedOpening {
        seats: history.seats(),
        name: history.first_name(),
        ports: history.first_ports(),
    };
    audit_opened(alloc, history, &opening, strategy)
}

/// Whether a history with this opening is legal, and no allowed outcome is left undone at its end. The only error is
/// `OutOfMemory`, after an allocation failure.
fn audit_opened(
    alloc: Global,
    history: &History,
    opening: &AuditedOpening,
    strategy: &Strategy,
) -> Result<bool, AuditFault>
    requires opening { history.now.opening
        ≡ opening_of opening.now.seats opening.now.name.now opening.now.ports.now }
    requires closed { length history.now.closed ≡ opening.now.seats }
    ensures { IfOk result (λ b. IsTrue b
        ↔ (IsLegal strategy.now history.now.opening history.now.closed history.now.past
        × IsTrue (is_settled strategy.now history.now.past))) }
{
    laws::reachable();
    if !is_well_formed(opening, strategy) {
        return Ok(false);
    }
    match facts_of(alloc, history, opening, strategy)? {
        Some(facts) => Ok(are_given(history, opening.seats as u32) && facts.is_settled(strategy)),
        None => Ok(false),
    }
}

/// Whether the opening is well formed.
fn is_well_formed(opening: &AuditedOpening, strategy: &Strategy) -> bool
    ensures { result ≡ is_opening strategy.now
        (opening_of opening.now.seats opening.now.name.now opening.now.ports.now) }
{
    is_dns_label(opening.name)
        && are_replica_ports(strategy.replicas, opening.ports)
        && opening.seats >= 1
        && opening.seats <= MOST_SEATS
}

/// The facts at the end of a history with this opening; `None` if an entry isn't allowed. The only error is an
/// allocation failure.
fn facts_of(
    alloc: Global,
    history: &History,
    opening: &AuditedOpening,
    strategy: &Strategy,
) -> Result<Option<Facts>, AllocError>
    ensures { IfOk result (λ found. MatchOption found
        (all_allowed strategy.now
        (opening_of opening.now.seats opening.now.name.now opening.now.ports.now) history.now.past ≡ false)
        (λ f. FactsRepresent strategy.now
        (opening_of opening.now.seats opening.now.name.now opening.now.ports.now) history.now.past f)) }
{
    laws::reachable();
    let mut facts = Facts::new(alloc, strategy, opening.name, opening.ports)?;
    for place in 0..history.len() {
        let entry = entry_at(history, place);
        if !facts.allows(strategy, opening.seats as u64, entry) {
            return Ok(None);
        }
        facts.take(strategy, entry, history, place)?;
    }
    Ok(Some(facts))
}
