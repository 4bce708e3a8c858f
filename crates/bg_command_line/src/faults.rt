//! The faults for words that are refused.
ghost use Rattle.std.specs.Prelude.{◌≡◌, IfOk};
ghost use Rattle.clap.specs.Words.{kind_of};
ghost use Rattle.bg_command_line.specs.Invocations.{IsConflict, IsFaultFrom, IsFaultOf, IsMissing, IsValueFault};

use crate::arguments::argument_text;
use crate::command_line::error_of_serve;
use crate::given_addresses::BadAddress;
use crate::invocation::InvocationFault;
use clap::error::ErrorKind;
use clap::{ArgMatches, Error};
use std::alloc::{AllocError, Global};

/// The fault of this kind for the words of `serve`.
fn fault_with(alloc: Global, kind: ErrorKind, message: &str) -> InvocationFault
    ensures { IsFaultOf kind result }
{
    match error_of_serve(alloc, kind, message) {
        Ok(error) => InvocationFault::Words(error),
        Err(_) => InvocationFault::OutOfMemory,
    }
}

/// Which two words are in conflict.
fn conflict_message(matches: &ArgMatches) -> &'static str {
    if argument_text(matches, "concurrency").is_some()
        && argument_text(matches, "workers").is_some()
    {
        "the argument '--workers <N>' cannot be used with '--concurrency <N>'"
    } else {
        "the argument '--count <N>' cannot be used with '--forever'"
    }
}

/// The fault for two words of which one replaces the other.
pub(crate) fn conflict_fault(alloc: Global, matches: &ArgMatches) -> InvocationFault
    ensures { IsConflict result }
{
    fault_with(
        alloc,
        ErrorKind::ArgumentConflict,
        conflict_message(matches),
    )
}

/// Which word needs `--stream`.
fn missing_stream_message(matches: &ArgMatches) -> &'static str {
    if argument_text(matches, "buffer").is_some() {
        "the argument '--buffer <N>' cannot be used without '--stream'"
    } else if argument_text(matches, "max-request-body").is_some() {
        "the argument '--max-request-body <N>' cannot be used without '--stream'"
    } else {
        "the argument '--max-response-body <N>' cannot be used without '--stream'"
    }
}

/// The fault for a word that needs `--stream`, which is not given.
pub(crate) fn missing_stream_fault(alloc: Global, matches: &ArgMatches) -> InvocationFault
    ensures { IsMissing result }
{
    fault_with(
        alloc,
        ErrorKind::MissingRequiredArgument,
        missing_stream_message(matches),
    )
}

pub(crate) fn fault_of(error: Error) -> InvocationFault
    ensures { IsFaultFrom error result }
{
    match error.kind() {
        ErrorKind::OutOfMemory => InvocationFault::OutOfMemory,
        _ => InvocationFault::Words(error),
    }
}

/// The fault for a bad address.
pub(crate) fn address_fault(alloc: Global, bad: BadAddress) -> InvocationFault
    ensures { IsValueFault result }
{
    match address_error(alloc, bad) {
        Ok(error) => InvocationFault::Words(error),
        Err(_) => InvocationFault::OutOfMemory,
    }
}

fn address_error(alloc: Global, bad: BadAddress) -> Result<Error, AllocError>
    ensures { IfOk result (λ e. kind_of e ≡ ErrorKind.ValueValidation) }
{
    let message = format!(in alloc; "{bad}")?;
    error_of_serve(alloc, ErrorKind::ValueValidation, message.as_str())
}
