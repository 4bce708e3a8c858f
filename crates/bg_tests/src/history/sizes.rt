//! An entry is small: the two entries of a request take at most 80 bytes, and the name and the ports of a deploy take
//! one pointer each.
use bg_history::Entry;
use bg_revisions::{Name, Ports};
use std::mem::size_of;

#[test]
fn an_entry_is_small(rt: HostRuntime) {
    assert_eq!(rt; size_of::<Name>(), size_of::<usize>());
    assert_eq!(rt; size_of::<Ports>(), size_of::<usize>());
    let size = size_of::<Entry>();
    assert!(rt; size <= 40, "{size}");
}
