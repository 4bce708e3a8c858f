//! The calls that read what users write: words, a line and a strategy.

use crate::asking::{made, show};
use crate::page::Page;
use crate::stop::Stop;
use crate::strategies::BASE;
use bg_command_line::{Invocation, parse_command_line};
use bg_operator::{Command, parse_line};
use bg_script::check;
use std::alloc::Global;
use std::io;

const DEPLOY: &[u8] = b"deploy v2 9101 9102";

/// The same, with a time limit.
const DEPLOY_IN_TIME: &[u8] = b"before 5000 deploy v2 9101 9102";

pub fn make_calls<R: AllocGlobal + Print + Eprint>(rt: &R) -> Result<(), Stop> {
    let order = make_order(rt)?;
    println!(rt; "{order:?}")?;
    let command = make_command(rt, "parse_line", DEPLOY)?;
    println!(rt; "{command:?}")?;
    let command = make_command(rt, "parse_line before", DEPLOY_IN_TIME)?;
    println!(rt; "{command:?}")?;
    let settings = make_settings(rt)?;
    show(rt, &settings)
}

fn make_order<R: AllocGlobal + Print + Eprint>(rt: &R) -> Result<Invocation<'_>, Stop> {
    made(rt, "order", || new_order(rt.alloc()))
}

fn new_order<'a>(alloc: Global) -> Result<Invocation<'a>, Stop> {
    Ok(parse_command_line(alloc, &["bg_switch", "replay", "--seats", "2"])?)
}

fn make_command<R: AllocGlobal + Print + Eprint>(
    rt: &R,
    name: &str,
    line: &[u8],
) -> Result<Command, Stop> {
    made(rt, name, || new_command(rt.alloc(), line))
}

fn new_command(alloc: Global, line: &[u8]) -> Result<Command, Stop> {
    Ok(parse_line(alloc, line)?)
}

fn make_settings<R: AllocGlobal + Print + Eprint>(rt: &R) -> Result<Page, Stop> {
    made(rt, "check", || new_settings(rt.alloc()))
}

/// What a strategy means.
fn new_settings(alloc: Global) -> Result<Page, Stop> {
    let mut settings = Page::new();
    match check(alloc, &mut BASE.as_bytes(), &mut settings, &mut io::sink())? {
        0 => Ok(settings),
        _ => Err(Stop::OtherFault),
    }
}
