//! The open requests, and the greatest request number.
ghost use Rattle.std.specs.Prelude.{◌≡◌, ◌∷◌, ◌==◌, not, List, map, filter, find, OnOk, Some};
ghost use Rattle.std.specs.List.{list_any};
ghost use Rattle.std.specs.Option.{option_copied};
ghost use Rattle.bg_history.specs.declared.entry.Entry.{Entry};
ghost use Rattle.bg_history.specs.Requests.{open_requests, request_numbers};
ghost use Rattle.bg_audit.specs.Requests.{request_told, greatest_of, greater_of, is_above};

use bg_history::Entry;
use std::alloc::AllocError;

/// A request at a seat: an open one, which entered and hasn't left, or one that is to enter.
#[derive(Clone, Copy, Drop)]
pub struct AuditedRequest {
    pub seat: u32,
    pub number: u64,
    pub revision: u64,
}

/// The request that a seat holds.
pub fn held_by(requests: &[AuditedRequest], seat: u32) -> Option<&AuditedRequest>
    ensures { option_copied result ≡ find (λ q. q.seat == seat) requests.now }
{
    requests.iter().find(|request| request.seat == seat)
}

/// Whether a request is open at the revision.
pub fn has_open_at(requests: &[AuditedRequest], revision: u64) -> bool
    ensures { result ≡ list_any (λ q. q.revision == revision) requests.now }
{
    requests.iter().any(|request| request.revision == revision)
}

/// Updates the open requests with an entry. The only error is an allocation failure.
pub fn take(requests: &mut Vec<AuditedRequest>, entry: &Entry) -> Result<(), AllocError>
    ensures { (past : List Entry) → requests.old.items ≡ map request_told (open_requests past)
        → OnOk result (requests.new.items ≡ map request_told (open_requests (entry.now ∷ past))) }
{
    match entry {
        Entry::Enter {
            seat,
            service: _,
            number,
            revision,
            port: _,
        } => requests.push(AuditedRequest {
            seat: *seat,
            number: *number,
            revision: *revision,
        })?,
        Entry::Leave { number, .. } => drop_request(requests, *number),
        _ => {}
    }
    Ok(())
}

/// Drops the request of that number.
fn drop_request(requests: &mut Vec<AuditedRequest>, number: u64)
    ensures { requests.new.items ≡ filter (λ q. not (q.number == number)) requests.old.items }
{
    requests.retain(|request| request.number != number);
}

/// The greatest request number after the entry; `greatest` is the greatest one before it.
pub fn greatest_number(greatest: Option<u64>, entry: &Entry) -> Option<u64>
    ensures { (past : List Entry) → greatest ≡ greatest_of (request_numbers past)
        → result ≡ greatest_of (request_numbers (entry.now ∷ past)) }
{
    match entry {
        Entry::Enter { number, .. } | Entry::Leave { number, .. } => greater_of(greatest, *number),
        _ => greatest,
    }
}

fn greater_of(greatest: Option<u64>, number: u64) -> Option<u64>
    ensures { result ≡ Some (greater_of number greatest) }
{
    match greatest {
        None => Some(number),
        Some(other) => Some(number.max(other)),
    }
}

/// Whether the number is above the greatest one, or there is none.
pub fn is_above(number: u64, greatest: Option<u64>) -> bool
    ensures { result ≡ is_above number greatest }
{
    match greatest {
        Some(greatest) => greatest < number,
        None => true,
    }
}
