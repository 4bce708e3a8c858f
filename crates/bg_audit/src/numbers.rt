//! The request numbers of a history.
ghost use Rattle.std.specs.Prelude.{◌≡◌, ◌≤◌, ◌<◌, ◌*◌, ◌^◌, [], ◌∷◌, Some, length, reverse, slice_get, sum};
ghost use Rattle.bg_history.specs.Requests.{entered, given, request_numbers};
ghost use Rattle.bg_history.specs.Steps.{all_given};

use bg_history::{Entry, History};

/// Whether each request number lies from 1 to the number of given ones, for a history with `seats` seats.
pub fn are_given(history: &History, seats: u32) -> bool
    requires few { seats ≤ 2048 }
    requires seats { seats ≡ history.now.opening.seats }
    requires closed { length history.now.closed ≡ seats }
    ensures { result ≡ all_given (given history.now.closed history.now.past)
        (request_numbers history.now.past) }
{
    let given = entered(history) as u128 + closed(history, seats);
    lie_within(history, given)
}

/// The number of Enters in the history.
fn entered(history: &History) -> u64
    ensures { result ≡ entered history.now.past }
{
    let mut count: u64 = 0;
    for place in 0..history.len() {
        count += enters(entry_at(history, place));
    }
    count
}

/// 1 if the entry is an Enter, else 0.
fn enters(entry: &Entry) -> u64
    ensures count { result ≡ entered (entry.now ∷ []) }
    ensures most { result ≤ 1 }
{
    match entry {
        Entry::Enter { .. } => 1,
        _ => 0,
    }
}

/// The number of closed requests whose entries were dropped.
fn closed(history: &History, seats: u32) -> u128
    requires few { seats ≤ 2048 }
    requires seats { seats ≡ history.now.opening.seats }
    requires closed { length history.now.closed ≡ seats }
    ensures sum { result ≡ sum history.now.closed }
    ensures most { result ≤ 2048 * 2 ^ 64 }
{
    let mut count: u128 = 0;
    for seat in 0..seats {
        count += history.closed(seat) as u128;
    }
    count
}

/// Whether each request number lies from 1 to `given`.
fn lie_within(history: &History, given: u128) -> bool
    ensures { result ≡ all_given given (request_numbers history.now.past) }
{
    for place in 0..history.len() {
        if !lies_within(entry_at(history, place), given) {
            return false;
        }
    }
    true
}

/// Whether the request number of the entry, if it has one, lies from 1 to `given`.
fn lies_within(entry: &Entry, given: u128) -> bool
    ensures { result ≡ all_given given (request_numbers (entry.now ∷ [])) }
{
    match entry {
        Entry::Enter { number, .. } | Entry::Leave { number, .. } => {
            *number >= 1 && *number as u128 <= given
        }
        _ => true,
    }
}

/// The entry at a place; the oldest entry is at place 0.
pub fn entry_at(history: &History, place: u64) -> &Entry
    requires { place < length history.now.past }
    ensures { slice_get (reverse history.now.past) place ≡ Some result.now }
{
    match history.get(place) {
        Some(entry) => entry,
        None => unreachable!(),
    }
}
