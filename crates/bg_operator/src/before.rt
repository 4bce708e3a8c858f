//! Lines with a time limit.
ghost use Rattle.std.specs.Prelude.{◌≡◌};
ghost use Rattle.bg_operator.specs.Words.{words_ahead};
ghost use Rattle.bg_operator.specs.Commands.{IsReadAs, before_reading, event_reading, with_time_limit};

use crate::command::Command;
use crate::line_fault::LineFault;
use crate::parsing::{are_ports, command_in_table, template};
use crate::words::{Words, long_number};
use std::alloc::Global;

/// The command of the words after `before`: a number of milliseconds, and a line that gives an event.
pub(crate) fn before(alloc: Global, mut words: Words) -> Result<Command, LineFault>
    ensures { IsReadAs (before_reading (words_ahead words.entry)) result }
{
    let limit = words.next().ok_or(LineFault::WrongCount)?;
    let first = words.next().ok_or(LineFault::WrongCount)?;
    event_before(alloc, long_number(limit)?, first, words)
}

/// The event of a line's first word and the words after it, with this time limit. A line that is well formed and gives no
/// event is a `BadWord`.
#[tactic(auto, using(crate::proofs::LineReadings::fault_of_any_ports))]
fn event_before(
    alloc: Global,
    milliseconds: u64,
    first: &str,
    words: Words,
) -> Result<Command, LineFault>
    ensures { IsReadAs (with_time_limit milliseconds (event_reading first.now (words_ahead words.entry))) result }
{
    match first {
        "before" => Err(LineFault::BadWord),
        // these two give no event, so no memory is allocated for them
        "open" => Err(template(words).err().unwrap_or(LineFault::BadWord)),
        "down" if are_ports(words) => Err(LineFault::BadWord),
        "down" => Err(LineFault::BadNumber),
        _ => only_event(milliseconds, command_in_table(alloc, first, words)),
    }
}

/// The command with this time limit, if it is an event. Any other command is a `BadWord`.
fn only_event(milliseconds: u64, read: Result<Command, LineFault>) -> Result<Command, LineFault>
    ensures { result ≡ with_time_limit milliseconds read }
{
    match read? {
        Command::Control(event) => Ok(Command::Before {
            milliseconds,
            event,
        }),
        _ => Err(LineFault::BadWord),
    }
}
