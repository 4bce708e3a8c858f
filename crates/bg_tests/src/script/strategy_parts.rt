//! The number of bytes that are read of a strategy before a script without end.
use crate::script::streams::Endless;
use bg_operator::{StrategyPart, part_before_script};
use std::alloc::Global;
use std::io::BufReader;
use std::test::Fail;

const LARGEST: usize = 1_048_576;

/// The number of bytes that are read of a strategy of this byte without end, if it is found too large.
fn count_of_too_large(alloc: Global, byte: u8) -> Result<Option<usize>, Fail> {
    let mut input = BufReader::new(alloc, Endless::of(byte))?;
    let part = part_before_script(alloc, &mut input)?;
    match &part {
        StrategyPart::TooLarge => Ok(Some(input.get_ref().count)),
        _ => Ok(None),
    }
}

/// Whether only this much is read of a strategy that is found too large.
fn is_little(count: Option<usize>) -> bool {
    matches!(count, Some(count) if count <= LARGEST + 8192)
}

#[test]
fn stops_at_a_part_that_is_too_large(rt: HostRuntime) -> Result<(), Fail> {
    let count = count_of_too_large(rt.alloc(), b'\n')?;
    assert!(rt; is_little(count), "{count:?} bytes were read");
    Ok(())
}

#[test]
fn stops_in_a_line_that_is_too_large(rt: HostRuntime) -> Result<(), Fail> {
    let count = count_of_too_large(rt.alloc(), b' ')?;
    assert!(rt; is_little(count), "{count:?} bytes were read");
    Ok(())
}
