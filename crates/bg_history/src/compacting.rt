//! Compacting a list of entries in place.
ghost use Rattle.std.specs.Prelude.{◌≡◌, ◌+◌, ◌^◌, ◌<◌, ◌≤◌, ℕ, not, List, length, reverse, take, drop, map, filter, vec_len, vec_capacity, slice_get, slice_set, slice_index, Some, IsTrue};
ghost use Rattle.std.specs.List.{list_any, position};
ghost use Rattle.bg_history.specs.declared.entry.Entry.{Entry as entry};
ghost use Rattle.bg_history.specs.Requests.{given};
ghost use Rattle.bg_history.specs.declared.entry.Entry.TheVariants.{Enter, Leave};
ghost use Rattle.bg_revisions.specs.declared.revision.Service.{Service as service};
ghost use Rattle.bg_history.specs.Compacted.{compacted, closed_after, left_numbers, is_among, thin, bump};
ghost use Rattle.bg_history.specs.Compacting.{is_tick as tick, is_leave as is_leave_entry, is_enter_of, is_some_enter_of, as_left, laid, overwrites_at};
ghost use Rattle.bg_history.specs.Sound.{is_sound};

use crate::entry::Entry;

/// What compaction does with an entry, as `treatment_of` of specs/Compacting.antt says it.
enum Treatment {
    /// Keep the entry.
    Keep,
    /// Drop the entry: it is the Leave of a closed request.
    Discard,
    /// Drop the entry and count its request: it is the Enter of a closed request of that seat.
    CountClosed(u32),
}

/// Drops the entries of each closed request, counts the request for its seat, and drops each tick that another tick
/// directly follows. Gives the number of dropped entries. The time grows as the number of entries, if each seat has one
/// request at a time. `places` has a place for each seat; what it has before and afterwards means nothing.
pub fn compact(entries: &mut Vec<Entry>, closed: &mut Vec<u64>, places: &mut Vec<usize>) -> u64
    requires sound { IsTrue (is_sound (vec_len closed.old) (reverse entries.old.items)) }
    requires given { given closed.old.items (reverse entries.old.items) ≤ 2 ^ 53 }
    ensures entries { reverse entries.new.items ≡ compacted (reverse entries.old.items) }
    ensures closed { closed.new.items ≡ closed_after (reverse entries.old.items) closed.old.items }
    ensures dropped { result + vec_len entries.new ≡ vec_len entries.old }
    ensures capacity { vec_capacity entries.new ≡ vec_capacity entries.old }
{
    replace_closed(
        entries.as_mut_slice(),
        closed.as_mut_slice(),
        places.as_mut_slice(),
    );
    drop_leaves(entries)
}

/// Puts a Leave in the place of the Enter of each closed request, and counts the request for its seat.
fn replace_closed(entries: &mut [Entry], closed: &mut [u64], places: &mut [usize])
    requires sound { IsTrue (is_sound (length closed.old) (reverse entries.old)) }
    requires given { given closed.old (reverse entries.old) ≤ 2 ^ 53 }
    ensures entries { entries.new ≡ map (as_left (is_among (left_numbers (reverse entries.old)))) entries.old }
    ensures closed { closed.new ≡ closed_after (reverse entries.old) closed.old }
{
    for place in 0..entries.len() {
        match &entries[place] {
            Entry::Enter { seat, .. } => {
                if let Some(latest) = places.get_mut(*seat as usize) {
                    *latest = place;
                }
            }
            Entry::Leave { seat, number, .. } => {
                let number = *number;
                let latest = places.get(*seat as usize).copied().unwrap_or(0);
                let enter = place_of_enter(entries, latest, number);
                replace(entries, closed, enter);
            }
            _ => {}
        }
    }
}

/// The place of the Enter of the request of that number: `latest`, if it is there, or the first one that a search finds.
fn place_of_enter(entries: &[Entry], latest: usize, number: u64) -> usize
    requires { IsTrue (list_any (is_enter_of number) entries.now) }
    ensures { IsTrue (is_some_enter_of number (slice_get entries.now result)) }
{
    if let Some(entry) = entries.get(latest)
        && is_enter(entry, number)
    {
        return latest;
    }
    first_enter(entries, number).unwrap_or(latest)
}

fn first_enter(entries: &[Entry], number: u64) -> Option<usize>
    ensures { result ≡ position (is_enter_of number) entries.now }
{
    entries.iter().position(|entry| is_enter(entry, number))
}

fn is_enter(entry: &Entry, number: u64) -> bool
    ensures { result ≡ is_enter_of number entry.now }
{
    match entry {
        Entry::Enter {
            number: entered,
            ..
        } => *entered == number,
        _ => false,
    }
}

/// Puts the Leave of a request in the place of its Enter, and counts the request for its seat.
fn replace(entries: &mut [Entry], closed: &mut [u64], place: usize)
    requires within { place < length entries.old }
    requires fits { (seat number revision port : ℕ) (service : service) → slice_get entries.old place ≡ Some (Enter seat service number revision port)
        → (seat < length closed.old) × (slice_index closed.old seat + 1 ≤ 2 ^ 53) }
    ensures entries { (seat number revision port : ℕ) (service : service) → slice_get entries.old place ≡ Some (Enter seat service number revision port)
        → entries.new ≡ slice_set entries.old place (Leave seat number revision) }
    ensures closed { (seat number revision port : ℕ) (service : service) → slice_get entries.old place ≡ Some (Enter seat service number revision port)
        → closed.new ≡ bump seat closed.old }
{
    if let Entry::Enter {
        seat,
        number,
        revision,
        ..
    } = &entries[place]
    {
        let (seat, number, revision) = (*seat, *number, *revision);
        closed[seat as usize] += 1;
        entries[place] = Entry::Leave {
            seat,
            number,
            revision,
        };
    }
}

/// Drops each Leave, and each tick that another tick directly follows. Gives the number of dropped entries.
fn drop_leaves(entries: &mut Vec<Entry>) -> u64
    ensures entries { reverse entries.new.items ≡ thin (filter (λ e. not (is_leave_entry e)) (reverse entries.old.items)) }
    ensures dropped { result + vec_len entries.new ≡ vec_len entries.old }
    ensures capacity { vec_capacity entries.new ≡ vec_capacity entries.old }
{
    let count = entries.len();
    let mut kept = 0;
    for place in 0..count {
        if !is_leave(&entries[place]) {
            kept = move_to(entries, kept, place);
        }
    }
    entries.truncate(kept);
    (count - kept) as u64
}

fn is_leave(entry: &Entry) -> bool
    ensures { result ≡ is_leave_entry entry.now }
{
    matches!(entry, Entry::Leave { .. })
}

/// Moves the entry at `place` behind the first `kept` entries. If it and the last of these are both ticks, it
/// replaces that one. Gives the number of kept entries after this.
fn move_to(entries: &mut Vec<Entry>, kept: usize, place: usize) -> usize
    requires before { kept ≤ place }
    requires within { place < vec_len entries.old }
    ensures laid { (e : entry) → slice_get entries.old.items place ≡ Some e
        → take result entries.new.items ≡ reverse (laid e (reverse (take kept entries.old.items))) }
    ensures rest { drop (place + 1) entries.new.items ≡ drop (place + 1) entries.old.items }
    ensures most { result ≤ place + 1 }
    ensures len { vec_len entries.new ≡ vec_len entries.old }
    ensures capacity { vec_capacity entries.new ≡ vec_capacity entries.old }
{
    let end = if overwrites(entries, kept, place) {
        kept - 1
    } else {
        kept
    };
    entries.swap(end, place);
    end + 1
}

/// Whether the entry at `place` and the last of the first `kept` ones are both ticks.
fn overwrites(entries: &[Entry], kept: usize, place: usize) -> bool
    requires before { kept ≤ place }
    requires within { place < length entries.now }
    ensures { result ≡ overwrites_at kept place entries.now }
{
    kept > 0 && is_tick(&entries[place]) && is_tick(&entries[kept - 1])
}

fn is_tick(entry: &Entry) -> bool
    ensures { result ≡ tick entry.now }
{
    matches!(entry, Entry::Tick(_))
}
