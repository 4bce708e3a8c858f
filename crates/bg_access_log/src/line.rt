//! Members of a line of the log.
ghost use Rattle.std.specs.Prelude.{◌≡◌, flat_map};
ghost use Rattle.std.specs.Option.{option_map};
ghost use Rattle.bg_access_log.specs.Lines.{Adds, number_member, optional_member, optional_text_member, text_member};

use json::Writer;
use std::alloc::AllocError;

/// Writes a member whose value is a text, or null.
pub(crate) fn add_text(line: &mut Writer, name: &str, text: Option<&str>) -> Result<(), AllocError>
    ensures { Adds result line.old line.new
        (text_member name.now (option_map (λ t. t.now) text.entry)) }
{
    line.key(name)?;
    match text {
        Some(text) => line.string(text),
        None => line.null(),
    }
}

/// Writes a member whose value is a number, or null.
pub(crate) fn add_number(
    line: &mut Writer,
    name: &str,
    number: Option<u64>,
) -> Result<(), AllocError>
    ensures { Adds result line.old line.new (number_member name.now number) }
{
    line.key(name)?;
    match number {
        Some(number) => line.u64(number),
        None => line.null(),
    }
}

/// Writes a member whose value is a text. Writes nothing if it has no value.
pub(crate) fn add_optional_text(
    line: &mut Writer,
    name: &str,
    text: Option<&str>,
) -> Result<(), AllocError>
    ensures { Adds result line.old line.new
        (optional_text_member name.now (option_map (λ t. t.now) text.entry)) }
{
    match text {
        Some(text) => add_text(line, name, Some(text)),
        None => Ok(()),
    }
}

/// The value of a member that is left out if it has none.
#[derive(Clone, Copy, Drop)]
pub(crate) enum OptionalValue {
    Number(Option<u64>),
    Flag(Option<bool>),
}

/// Writes members, of which each is left out if it has no value.
pub(crate) fn add_optionals(
    line: &mut Writer,
    members: &[(&str, OptionalValue)],
) -> Result<(), AllocError>
    ensures { Adds result line.old line.new (flat_map (λ m. optional_member m.0.now m.1) members.now) }
{
    for member in members {
        add_optional(line, member.0, member.1)?;
    }
    Ok(())
}

/// Writes a member. Writes nothing if it has no value.
fn add_optional(line: &mut Writer, name: &str, value: OptionalValue) -> Result<(), AllocError>
    ensures { Adds result line.old line.new (optional_member name.now value) }
{
    match value {
        OptionalValue::Number(Some(number)) => add_number(line, name, Some(number)),
        OptionalValue::Flag(Some(flag)) => {
            line.key(name)?;
            line.boolean(flag)
        }
        OptionalValue::Number(None) | OptionalValue::Flag(None) => Ok(()),
    }
}
