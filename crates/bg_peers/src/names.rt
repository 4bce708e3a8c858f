//! The names of users and of groups (passwd(5), group(5)).

use crate::lines::{field_at, number_of, split_line};
use crate::text_file::text_of;
use std::alloc::{AllocError, Global};

const PASSWD: &[u8] = b"/etc/passwd";

const GROUP: &[u8] = b"/etc/group";

/// The position of the number of a user, or of a group, in its line. Its name is at the front.
const NUMBER_PLACE: usize = 2;

/// The text of `/etc/passwd`; empty if it cannot be read.
pub(crate) fn read_passwd(alloc: Global) -> Result<Vec<u8>, AllocError> {
    text_of(alloc, PASSWD)
}

/// The number (`gid`) of the group that a word gives, by its number, or else by its name in `/etc/group`; `None` if there is
/// no such group. The only error is an allocation failure.
pub fn group_number(alloc: Global, word: &str) -> Result<Option<u32>, AllocError> {
    let groups = text_of(alloc, GROUP)?;
    Ok(number_or_named(&groups, word))
}

/// The number that a word gives, by itself, or else as a name in the text of `/etc/passwd` or `/etc/group`.
pub(crate) fn number_or_named(text: &[u8], word: &str) -> Option<u32> {
    match number_of(word.as_bytes()) {
        // the last number stands for no user, and for no group (chown(2))
        Some(u32::MAX) => None,
        Some(number) => Some(number),
        None => number_named(text, word.as_bytes()),
    }
}

/// The number of the user or of the group with this name, by the first line that has it.
fn number_named(text: &[u8], name: &[u8]) -> Option<u32> {
    let mut rest = text;
    for _ in 0..text.len() {
        let (line, next) = split_line(rest)?;
        if field_at(line, 0) == Some(name) {
            return number_of(field_at(line, NUMBER_PLACE)?);
        }
        rest = next;
    }
    None
}
