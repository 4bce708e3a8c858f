//! The options of a subcommand.
ghost use Rattle.std.specs.Prelude.{◌≡◌, IfOk, false, fold, map};
ghost use Rattle.clap.specs.Words.{app_of, rule_of, with_rule};
ghost use Rattle.clap.specs.declared.builder.command.Command.TheViews.{out-Command as fields_of};
ghost use Rattle.bg_command_line.specs.OptionRules.{flag_rule, option_rule, range_rule, text_rule, texts_rule, word_rule};

use clap::builder::ValueParser;
use clap::{Arg, ArgAction, Command};
use std::alloc::{AllocError, Global};

/// The value of an option.
#[derive(Clone, Copy)]
pub(crate) enum OptionValue<'a> {
    /// There is none: the option is a flag.
    Nothing,
    /// A number from 1 to this one.
    UpTo(u64),
    /// A number from the first of these to the second.
    Between(u64, u64),
    /// A text that is not empty. The help calls it by this word.
    Text(&'a str),
    /// Texts that are not empty, each after a `--NAME` of its own. The help calls one by this word.
    Texts(&'a str),
    /// A text that is not empty, as a word of its own without `--NAME`: a positional argument. The help calls it by
    /// this word.
    Word(&'a str),
}

/// An option of a subcommand.
#[derive(Clone, Copy)]
pub(crate) struct CommandOption<'a> {
    /// `NAME` in `--NAME`, or the name of a positional argument.
    pub(crate) name: &'a str,
    pub(crate) value: OptionValue<'a>,
    /// Whether the option has to be given.
    pub(crate) required: bool,
    pub(crate) help: &'a str,
}

/// The optional `--NAME N`, with N from `least` to `most`.
fn number_argument<'a>(alloc: Global, name: &'a str, least: u64, most: u64) -> Arg<'a>
    ensures rule { rule_of result ≡ range_rule name.entry.now least most }
    ensures local { result.global ≡ false }
{
    Arg::new(alloc, name)
        .long(name)
        .value_name("N")
        .value_parser(ValueParser::unsigned(least, most))
}

/// The optional `--NAME TEXT`, with a text that is not empty, which the help calls `value`.
fn text_argument<'a>(alloc: Global, name: &'a str, value: &'a str) -> Arg<'a>
    ensures rule { rule_of result ≡ text_rule name.entry.now }
    ensures local { result.global ≡ false }
{
    Arg::new(alloc, name)
        .long(name)
        .value_name(value)
        .value_parser(ValueParser::NonEmptyString)
}

/// The same, which may be given several times.
fn texts_argument<'a>(alloc: Global, name: &'a str, value: &'a str) -> Arg<'a>
    ensures rule { rule_of result ≡ texts_rule name.entry.now }
    ensures local { result.global ≡ false }
{
    text_argument(alloc, name, value).action(ArgAction::Append)
}

/// The optional word `NAME`, a text that is not empty, which the help calls `value`.
fn word_argument<'a>(alloc: Global, name: &'a str, value: &'a str) -> Arg<'a>
    ensures rule { rule_of result ≡ word_rule name.entry.now }
    ensures local { result.global ≡ false }
{
    Arg::new(alloc, name)
        .value_name(value)
        .value_parser(ValueParser::NonEmptyString)
}

/// The optional flag `--NAME`, which has no value.
fn flag<'a>(alloc: Global, name: &'a str) -> Arg<'a>
    ensures rule { rule_of result ≡ flag_rule name.entry.now }
    ensures local { result.global ≡ false }
{
    Arg::new(alloc, name).long(name).action(ArgAction::SetTrue)
}

/// The argument of `clap` for an option.
fn argument<'a>(alloc: Global, option: &CommandOption<'a>) -> Arg<'a>
    ensures rule { rule_of result ≡ option_rule option.now }
    ensures local { result.global ≡ false }
{
    let argument = match option.value {
        OptionValue::Nothing => flag(alloc, option.name),
        OptionValue::UpTo(most) => number_argument(alloc, option.name, 1, most),
        OptionValue::Between(least, most) => number_argument(alloc, option.name, least, most),
        OptionValue::Text(value) => text_argument(alloc, option.name, value),
        OptionValue::Texts(value) => texts_argument(alloc, option.name, value),
        OptionValue::Word(value) => word_argument(alloc, option.name, value),
    };
    argument.required(option.required).help(option.help)
}

/// The command with these options too, in order.
pub(crate) fn with_options<'a>(
    alloc: Global,
    command: Command<'a>,
    options: &[CommandOption<'a>],
) -> Result<Command<'a>, AllocError>
    requires { (fields_of command).has_globals ≡ false }
    ensures app { IfOk result (λ c. app_of c ≡ fold with_rule (app_of command.entry) (map option_rule options.now)) }
    ensures local { IfOk result (λ c. (fields_of c).has_globals ≡ false) }
{
    let mut command = command;
    for option in options {
        command = command.arg(argument(alloc, option))?;
    }
    Ok(command)
}
