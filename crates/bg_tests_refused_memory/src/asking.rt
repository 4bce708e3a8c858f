//! Makes calls that allocate, and repeats a call whose allocation failed.
//!
//! Each call has a name. Standard output names the call after it was made, and standard error names it if it was
//! refused.

use crate::page::Page;
use crate::stop::Stop;
use std::fmt::Display;

/// A value that calls change. Its display shows everything that it answers about itself.
pub trait Subject: Display {
    /// A call, with its arguments.
    type Call;

    fn make(&mut self, call: &Self::Call) -> Result<(), Stop>;
}

/// Changes `subject` by each of the calls, which share one name.
pub fn change<R: Print + Eprint, S: Subject>(
    rt: &R,
    name: &str,
    subject: &mut S,
    calls: &[S::Call],
) -> Result<(), Stop> {
    for call in calls {
        make(rt, name, subject, call)?;
    }
    say_made(rt, name)
}

/// Makes a call, and repeats it if it was refused.
pub fn make<R: Print + Eprint, S: Subject>(
    rt: &R,
    name: &str,
    subject: &mut S,
    call: &S::Call,
) -> Result<(), Stop> {
    repeated(rt, name, subject, |subject| subject.make(call))
}

/// The answer of a call that is made, and repeated if it was refused. A refused call must not change the display of the
/// subject; if it does, standard output says so.
pub fn repeated<R: Print + Eprint, S: Display, T: Drop, F: Fn(&mut S) -> Result<T, Stop>>(
    rt: &R,
    name: &str,
    subject: &mut S,
    call: F,
) -> Result<T, Stop>
    requires { F.IsAlwaysCallable call }
{
    let before = Page::of(subject)?;
    match call(subject) {
        Err(Stop::OutOfMemory) => {
            say_refused(rt, name)?;
            compare(rt, name, &before, &Page::of(subject)?)?;
            call(subject)
        }
        answer => answer,
    }
}

/// Writes a line to standard output if a refused call has changed the display.
pub fn compare<R: Print>(rt: &R, name: &str, before: &Page, after: &Page) -> Result<(), Stop> {
    if before.as_slice() != after.as_slice() {
        println!(rt; "changed: {name}, which was refused")?;
    }
    Ok(())
}

/// The result of a call that is made, and repeated if it was refused.
pub fn made<R: Print + Eprint, T: Drop, F: Fn() -> Result<T, Stop>>(
    rt: &R,
    name: &str,
    call: F,
) -> Result<T, Stop>
    requires { F.IsAlwaysCallable call }
{
    let value = match call() {
        Err(Stop::OutOfMemory) => {
            say_refused(rt, name)?;
            call()?
        }
        answer => answer?,
    };
    say_made(rt, name)?;
    Ok(value)
}

/// Writes that the call of this name was made.
pub fn say_made<R: Print>(rt: &R, name: &str) -> Result<(), Stop> {
    println!(rt; "made {name}")?;
    Ok(())
}

/// Writes that the call of this name was refused.
pub fn say_refused<R: Eprint>(rt: &R, name: &str) -> Result<(), Stop> {
    eprintln!(rt; "refused {name}")?;
    Ok(())
}

/// Writes the display of a value to standard output.
pub fn show<R: Print, S: Display>(rt: &R, value: &S) -> Result<(), Stop> {
    print!(rt; "{value}")?;
    Ok(())
}

/// From here on all allocations fail, if `scripts/refuse_memory.c` is loaded.
pub fn refuse_all<R: Eprint>(rt: &R) -> Result<(), Stop> {
    eprintln!(rt; "memory: none")?;
    Ok(())
}

/// From here on allocations succeed again.
pub fn refuse_none<R: Eprint>(rt: &R) -> Result<(), Stop> {
    eprintln!(rt; "memory: ample")?;
    Ok(())
}
