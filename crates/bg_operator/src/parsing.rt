//! The command of a line of a script.
ghost use Rattle.std.specs.Prelude.{◌≡◌, [], ◌∷◌, true, map, None, MatchResult};
ghost use Rattle.std.specs.List.{list_all};
ghost use Rattle.std.specs.Str.Parse.{digits_value};
ghost use Rattle.bg_operator.specs.Words.{is_number, queries, words_ahead};
ghost use Rattle.bg_operator.specs.Commands.{available_row, deploy_row, down_row, enter_row, is_printable, IsReadAs, leave_row, line_reading, open_row, promote_row, query_rows, reading_in, row_reading, single_word, table_reading, template_shape, text_fault, tick_row, verdict_row, words_reading};
ghost use Rattle.bg_operator.specs.Shapes.{shape_fault};
ghost use Rattle.bg_operator.specs.declared.line_fault.LineFault.TheVariants as line_fault;

use crate::before::before;
use crate::command::Command;
use crate::line_fault::LineFault;
use crate::lines::LONGEST_LINE;
use crate::query::query_named;
use crate::vocabulary::{analysis_named, result_named, service_named};
use crate::words::{Words, end, is_at_end, long_number, number, one, short_number, two};
use bg_history::Control;
use bg_revisions::{Name, Ports};
use std::alloc::Global;

/// Parses a line of a script, which is given without its end. Words are separated by one or more
/// spaces, and spaces at both ends are ignored. The lines are
///
/// - `open NAME PORT..` and `deploy NAME PORT..`, with one or more ports
/// - `tick MOMENT` and `available REVISION SIZE`
/// - `verdict pre` or `verdict post`, and then `successful`, `failed` or `error`
/// - `promote`, `promote full`, `abort` and `retry`
/// - `enter SEAT active` or `enter SEAT preview`, and `leave SEAT`
/// - `down PORT..`, with any number of ports
/// - the word of a [`Query`](crate::Query), such as `report`
/// - `compact` and `quit`
/// - `before MILLISECONDS LINE`, where LINE is a line that gives an event: `available`, `deploy`, `verdict`,
///   `promote`, `promote full`, `tick`, `abort` or `retry`
///
/// A number is 1 to 20 digits. Its value is below 2^16 for a port, 2^32 for a seat and a size, and
/// 2^64 for a moment, a revision and a time limit. A name may be any word here; the book checks it.
///
/// For any other line the error is its first fault, in the order of [`LineFault`]. In a line `before`, a faulty
/// time limit comes before the faults of LINE, and a LINE without a fault that gives no event is a `BadWord`.
/// `OutOfMemory` comes only for an `open`, a `deploy` or a `down`, and a `before` with a `deploy`, without another
/// fault.
pub fn parse_line(alloc: Global, line: &[u8]) -> Result<Command, LineFault>
    ensures { IsReadAs (line_reading line.now) result }
{
    let mut words = Words::new(plain_text(line)?);
    let first = words.next().ok_or(LineFault::Empty)?;
    command(alloc, first, words)
}

/// The command of a line's first word and the words after it.
fn command(alloc: Global, first: &str, words: Words) -> Result<Command, LineFault>
    ensures { IsReadAs (words_reading (first.now ∷ words_ahead words.entry)) result }
{
    match first {
        "before" => before(alloc, words),
        _ => command_in_table(alloc, first, words),
    }
}

/// The command of a line's first word and the words after it, by the table of lines.
pub(crate) fn command_in_table(
    alloc: Global,
    first: &str,
    words: Words,
) -> Result<Command, LineFault>
    ensures { IsReadAs (table_reading first.now (words_ahead words.entry)) result }
{
    match first {
        "open" => open(alloc, words),
        "deploy" => deploy(alloc, words),
        "tick" => tick(words),
        "available" => available(words),
        "verdict" => verdict(words),
        "promote" => promote(words),
        "abort" => alone(Command::Control(Control::Abort), words),
        "retry" => alone(Command::Control(Control::Retry), words),
        "enter" => enter(words),
        "leave" => leave(words),
        "down" => down(alloc, words),
        "compact" => alone(Command::Compact, words),
        "quit" => alone(Command::Quit, words),
        _ => query(first, words),
    }
}

/// The text of a line that is not too long and whose bytes are all between 32 and 126.
fn plain_text(line: &[u8]) -> Result<&str, LineFault>
    ensures { MatchResult result
        (λ text. (text_fault line.now ≡ None) × (text.now ≡ line.now))
        (λ fault. text_fault line.now ≡ Some fault) }
{
    if line.len() > LONGEST_LINE {
        return Err(LineFault::TooLong);
    }
    if !is_printable_text(line) {
        return Err(LineFault::NotAscii);
    }
    str::from_utf8(line).map_err(|_| LineFault::NotAscii)
}

fn is_printable_text(line: &[u8]) -> bool
    ensures { result ≡ list_all is_printable line.now }
{
    line.iter().all(|byte| (b' '..=b'~').contains(byte))
}

fn open(alloc: Global, words: Words) -> Result<Command, LineFault>
    ensures { IsReadAs (row_reading open_row (words_ahead words.entry)) result }
{
    let (name, ports) = template(words)?;
    let name = Name::new(alloc, name)?;
    let ports = read_ports(alloc, ports)?;
    Ok(Command::Open { name, ports })
}

fn deploy(alloc: Global, words: Words) -> Result<Command, LineFault>
    ensures { IsReadAs (row_reading deploy_row (words_ahead words.entry)) result }
{
    let (name, ports) = template(words)?;
    let name = Name::new(alloc, name)?;
    let ports = read_ports(alloc, ports)?;
    Ok(Command::Control(Control::Deploy { name, ports }))
}

/// The name of a revision and the words after it, which are one or more ports.
pub(crate) fn template(mut words: Words<'_>) -> Result<(&str, Words<'_>), LineFault>
    ensures { MatchResult result
        (λ t. (shape_fault template_shape (words_ahead words.entry) ≡ None)
        × (words_ahead words.entry ≡ t.0.now ∷ words_ahead t.1)
        × (list_all (is_number 16) (words_ahead t.1) ≡ true))
        (λ fault. shape_fault template_shape (words_ahead words.entry) ≡ Some fault) }
{
    let name = words.next().ok_or(LineFault::WrongCount)?;
    if is_at_end(words) {
        return Err(LineFault::WrongCount);
    }
    if !are_ports(words) {
        return Err(LineFault::BadNumber);
    }
    Ok((name, words))
}

pub(crate) fn are_ports(mut words: Words) -> bool
    ensures { result ≡ list_all (is_number 16) (words_ahead words.entry) }
{
    words.all(|word| short_number(word).is_ok())
}

fn read_ports(alloc: Global, words: Words) -> Result<Ports, LineFault>
    requires { list_all (is_number 16) (words_ahead words) ≡ true }
    ensures { MatchResult result (λ ports. ports ≡ map (digits_value 10) (words_ahead words.entry))
        (λ fault. fault ≡ line_fault.OutOfMemory) }
{
    let mut numbers = Vec::new(alloc);
    for word in words {
        numbers.push(short_number(word)?)?;
    }
    Ok(Ports::from_vec(alloc, numbers)?)
}

fn tick(words: Words) -> Result<Command, LineFault>
    ensures { result ≡ row_reading tick_row (words_ahead words.entry) }
{
    let moment = long_number(one(words)?)?;
    Ok(Command::Control(Control::Tick(moment)))
}

fn available(words: Words) -> Result<Command, LineFault>
    ensures { result ≡ row_reading available_row (words_ahead words.entry) }
{
    let (revision, size) = two(words)?;
    Ok(Command::Control(Control::Available {
        revision: long_number(revision)?,
        size: number(size)?,
    }))
}

fn verdict(words: Words) -> Result<Command, LineFault>
    ensures { result ≡ row_reading verdict_row (words_ahead words.entry) }
{
    let (analysis, result) = two(words)?;
    Ok(Command::Control(Control::Verdict {
        analysis: analysis_named(analysis)?,
        result: result_named(result)?,
    }))
}

fn promote(mut words: Words) -> Result<Command, LineFault>
    ensures { result ≡ row_reading promote_row (words_ahead words.entry) }
{
    let Some(word) = words.next() else {
        return Ok(Command::Control(Control::Promote));
    };
    end(words)?;
    if word != "full" {
        return Err(LineFault::BadWord);
    }
    Ok(Command::Control(Control::PromoteFull))
}

fn enter(words: Words) -> Result<Command, LineFault>
    ensures { result ≡ row_reading enter_row (words_ahead words.entry) }
{
    let (seat, service) = two(words)?;
    Ok(Command::Enter {
        seat: number(seat)?,
        service: service_named(service)?,
    })
}

fn leave(words: Words) -> Result<Command, LineFault>
    ensures { result ≡ row_reading leave_row (words_ahead words.entry) }
{
    let seat = number(one(words)?)?;
    Ok(Command::Leave { seat })
}

#[tactic(auto, using(crate::proofs::LineReadings::fault_of_any_ports))]
fn down(alloc: Global, words: Words) -> Result<Command, LineFault>
    ensures { IsReadAs (row_reading down_row (words_ahead words.entry)) result }
{
    if !are_ports(words) {
        return Err(LineFault::BadNumber);
    }
    let ports = read_ports(alloc, words)?;
    Ok(Command::Down { ports })
}

/// The command of a line that asks a book for something.
#[tactic(auto, using(crate::proofs::LineReadings::reading_of_query))]
fn query(first: &str, words: Words) -> Result<Command, LineFault>
    ensures { result ≡ reading_in (query_rows queries) first.now (words_ahead words.entry) }
{
    match query_named(first) {
        Some(query) => alone(Command::Ask(query), words),
        None => Err(LineFault::UnknownWord),
    }
}

/// The command, if no word follows.
fn alone(command: Command, words: Words) -> Result<Command, LineFault>
    ensures { result ≡ row_reading (single_word [] command) (words_ahead words.entry) }
{
    end(words)?;
    Ok(command)
}
