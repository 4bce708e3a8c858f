//! Readers that never give a byte, and readers that give one byte at a time.
use crate::script::streams::{Interrupted, Slow};
use bg_operator::{Found, ReadFault, next_line};
use std::io::BufReader;
use std::test::Fail;

#[test]
fn gives_up_reading(rt: HostRuntime) -> Result<(), Fail> {
    let mut input = BufReader::new(rt.alloc(), Interrupted)?;
    let mut line = Vec::new(rt.alloc());
    let found = next_line(&mut input, &mut line);
    assert_eq!(rt; found, Err(ReadFault::ReadFailed));
    Ok(())
}

/// The break of a line that is too long is found also if it is the last byte that was read.
#[test]
fn passes_over_a_long_line_by_byte(rt: HostRuntime) -> Result<(), Fail> {
    let mut text = vec![in rt.alloc(); b'a'; 5_000]?;
    text.extend_from_slice(b"\nquit\n")?;
    let mut input = BufReader::new(rt.alloc(), Slow::new(text.as_slice(), 6_000))?;
    let mut line = Vec::new(rt.alloc());
    assert_eq!(rt; next_line(&mut input, &mut line), Ok(Found::TooLong));
    assert_eq!(rt; next_line(&mut input, &mut line), Ok(Found::Line));
    assert_eq!(rt; line.as_slice(), b"quit".as_slice());
    Ok(())
}
