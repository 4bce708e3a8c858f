//! The lines of a text, and the words of a line.

use memchr::memchr;

/// The first line without its LF, and the bytes after it; `None` if no LF is left.
pub(crate) fn split_line(bytes: &[u8]) -> Option<(&[u8], &[u8])> {
    let place = memchr(b'\n', bytes)?;
    let line = bytes.get(..place)?;
    let next = bytes.get(place.saturating_add(1)..)?;
    Some((line, next))
}

/// The word of a line that has `place` words before it. Words are separated by one or more spaces.
pub(crate) fn word_at(line: &[u8], place: usize) -> Option<&[u8]> {
    let mut before = 0usize;
    for word in line.split(|byte| *byte == b' ') {
        if !word.is_empty() {
            if before == place {
                return Some(word);
            }
            before = before.saturating_add(1);
        }
    }
    None
}

/// The field of a line that has `place` fields before it. Each field ends with a colon or with the line.
pub(crate) fn field_at(line: &[u8], place: usize) -> Option<&[u8]> {
    for (before, field) in line.split(|byte| *byte == b':').enumerate() {
        if before == place {
            return Some(field);
        }
    }
    None
}

/// The number that the digits give, if it is below 2^32.
pub(crate) fn number_of(digits: &[u8]) -> Option<u32> {
    if digits.is_empty() || !digits.iter().all(|byte| byte.is_ascii_digit()) {
        return None;
    }
    match str::from_utf8(digits) {
        Ok(text) => text.parse::<u32>().ok(),
        Err(_) => None,
    }
}
