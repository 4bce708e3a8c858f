//! The arguments among the matches of `clap`.
ghost use Rattle.std.specs.Prelude.{◌≡◌, IfSome, Some, is_some, map, option_map, true, unwrap_or};
ghost use Rattle.clap.specs.Words.{all_of, first_of, found_of, rows_of};
ghost use Rattle.bg_command_line.specs.AcceptedRows.{IsIn};
ghost use Rattle.bg_command_line.specs.ServeArguments.{IsBetween, has_flag, number_of};

use crate::numbers::{body_in, u16_in};
use clap::ArgMatches;

/// Whether a flag is given. `clap` gives it the value `true` or `false`.
pub(crate) fn has_flag(matches: &ArgMatches, id: &str) -> bool
    ensures { result ≡ has_flag id.now (rows_of (found_of matches.now)) }
{
    match argument_text(matches, id) {
        Some(text) => text == "true",
        None => false,
    }
}

/// The text of an argument, if it is given.
pub(crate) fn argument_text<'a>(matches: &ArgMatches<'a>, id: &str) -> Option<&'a str>
    ensures { option_map (λ t. t.now) result ≡ first_of id.now (rows_of (found_of matches.now)) }
{
    matches.get_str(id)
}

/// The texts of an argument, in the order of the words, if it is given.
pub(crate) fn argument_texts<'m, 'a>(matches: &'m ArgMatches<'a>, id: &str) -> Option<&'m [&'a str]>
    ensures { option_map (λ texts. map (λ t. t.now) texts.now) result ≡ all_of id.now (rows_of (found_of matches.now)) }
{
    matches.get_strs(id)
}

/// The text of an argument that is required.
pub(crate) fn required_text<'a>(matches: &ArgMatches<'a>, id: &str) -> &'a str
    requires { is_some (first_of id.now (rows_of (found_of matches.now))) ≡ true }
    ensures { first_of id.now (rows_of (found_of matches.now)) ≡ Some result.now }
{
    argument_text(matches, id).unwrap()
}

/// The number of an argument, if it is given.
pub(crate) fn u16_of<const MOST: u16>(matches: &ArgMatches, id: &str) -> Option<u16>
    requires { IsIn 1 MOST id.now (rows_of (found_of matches.now)) }
    ensures value { result ≡ number_of id.now (rows_of (found_of matches.now)) }
    ensures range { IfSome result (IsBetween 1 MOST) }
{
    match argument_text(matches, id) {
        Some(text) => Some(u16_in::<MOST>(text)),
        None => None,
    }
}

/// The most bytes of a body by an argument, if it is given.
pub(crate) fn body_of(matches: &ArgMatches, id: &str) -> Option<u64>
    requires { IsIn 65536 1099511627776 id.now (rows_of (found_of matches.now)) }
    ensures value { result ≡ number_of id.now (rows_of (found_of matches.now)) }
    ensures range { IfSome result (IsBetween 65536 1099511627776) }
{
    match argument_text(matches, id) {
        Some(text) => Some(body_in(text)),
        None => None,
    }
}

/// The number of an argument, or this one if it is not given.
pub(crate) fn u16_or<const MOST: u16>(matches: &ArgMatches, id: &str, default: u16) -> u16
    requires given { IsIn 1 MOST id.now (rows_of (found_of matches.now)) }
    requires default { IsBetween 1 MOST default }
    ensures value { result ≡ unwrap_or (number_of id.now (rows_of (found_of matches.now))) default }
    ensures range { IsBetween 1 MOST result }
{
    match argument_text(matches, id) {
        Some(text) => u16_in::<MOST>(text),
        None => default,
    }
}
