//! The number of bytes that are read of an input without end.
use crate::script::streams::{Endless, Page};
use bg_script::{check, replay};
use std::io;
use std::test::Fail;

/// The maximum length of a strategy in bytes.
const LARGEST: usize = 1_048_576;

/// The maximum number of bytes of one read.
const PIECE: usize = 8192;

#[test]
fn does_not_check_a_large_input_to_its_end(rt: HostRuntime) {
    let mut reader = Endless::of(b' ');
    let mut writer = Page::new();
    let status = check(rt.alloc(), &mut reader, &mut writer, &mut io::sink());
    assert_eq!(rt; status, Ok(1));
    assert_eq!(rt; writer.as_slice(), b"fault TooLarge\n".as_slice());
    assert!(rt;
        reader.count <= LARGEST + PIECE,
        "{} bytes were read",
        reader.count
    );
}

#[test]
fn does_not_replay_a_large_strategy_to_its_end(rt: HostRuntime) {
    let mut reader = Endless::of(b' ');
    let mut writer = Page::new();
    let status = replay(rt.alloc(), 4, &mut reader, &mut writer, &mut io::sink());
    assert_eq!(rt; status, Ok(1));
    assert_eq!(rt; writer.as_slice(), b"fault TooLarge\n".as_slice());
    assert!(rt;
        reader.count <= LARGEST + 2 * PIECE,
        "{} bytes were read",
        reader.count
    );
}
