//! Keys of `blueGreen` that look misspelt.

use crate::table::FIELDS;

/// The keys of `blueGreen` that this program does not read (Argo Rollouts, "Rollout Specification").
const UNREAD_KEYS: [&str; 4] = [
    "antiAffinity",
    "activeMetadata",
    "previewMetadata",
    "maxUnavailable",
];

/// The known key that is one edit away from an unknown one, if there is one.
pub fn meant_key(key: &str) -> Option<&'static str> {
    let key = key.as_bytes();
    let read_keys = FIELDS
        .iter()
        .filter(|field| field.is_in_blue_green())
        .map(|field| field.name());
    let mut meant = None;
    for known in read_keys.chain(UNREAD_KEYS.iter().copied()) {
        if known.as_bytes() == key {
            return None;
        }
        if is_one_edit_away(key, known.as_bytes()) {
            meant = Some(known);
        }
    }
    meant
}

/// Whether the texts differ by one byte that is added, left out or changed.
fn is_one_edit_away(one: &[u8], other: &[u8]) -> bool {
    let (mut one, mut other) = (one, other);
    for _ in 0..one.len() {
        let ([byte, rest @ ..], [other_byte, other_rest @ ..]) = (one, other) else {
            break;
        };
        if byte != other_byte {
            return rest == other_rest || rest == other || one == other_rest;
        }
        one = rest;
        other = other_rest;
    }
    // one of them is at its end
    one.len().max(other.len()) == 1
}
