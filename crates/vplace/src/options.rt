//! The options of a subcommand: what each takes, and which value the words give for it.

ghost use Rattle.std.specs.Prelude.{◌≡◌, IfOk, false, map, option_map};
ghost use Rattle.clap.specs.Words.{app_of, first_of, found_of, rows_of, rule_of};
ghost use Rattle.vplace.specs.CommandLine.{option, rule_for, with_rules};
ghost use Rattle.vplace.specs.Given.{GivesDefault, GivesName, GivesNumber, GivesOptionalName, GivesText};

use crate::arguments::as_bytes;
use clap::{Arg, ArgAction, ArgMatches, Command, value_parser};
use std::alloc::{AllocError, Global};

/// What an option takes.
#[derive(Clone, Copy)]
pub enum Takes {
    /// The name of a file; the option is required.
    NeededFile,
    /// The name of a file.
    File,
    /// A side of the array.
    Side,
    /// A whole number, perhaps with a default.
    Whole(Option<&'static str>),
    /// A decimal number, with its default.
    Decimal(&'static str),
}

/// An option: its name, what it takes, and its help.
pub type OptionRow = (&'static str, Takes, &'static str);

// The options of more than one subcommand.

/// The architecture file.
pub const ARCH: OptionRow = (
    "arch",
    Takes::NeededFile,
    "The architecture: pads and pins of a logic block",
);

/// The netlist file.
pub const NET: OptionRow = (
    "net",
    Takes::NeededFile,
    "The netlist: the blocks, and the nets on their pins",
);

/// The file for the placement.
pub const OUT: OptionRow = (
    "out",
    Takes::NeededFile,
    "The file for the placement, written at the end",
);

/// The most moves of a turn.
pub const BATCH: OptionRow = (
    "batch",
    Takes::Whole(Some("64")),
    "The moves judged ahead, 1 to 4096",
);

/// The most threads that judge moves ahead.
pub const WORKERS: OptionRow = (
    "workers",
    Takes::Whole(Some("4")),
    "The most threads that judge, 1 to 64",
);

/// After how many moves of the whole run to stop.
pub const STOP: OptionRow = (
    "stop",
    Takes::Whole(None),
    "Stop after this many moves of the run, with --save",
);

/// The file for the checkpoint of a run that stops.
pub const SAVE: OptionRow = (
    "save",
    Takes::File,
    "The file for the checkpoint, with --stop",
);

// An option with one value.
fn option_with_value<'a>(
    alloc: Global,
    name: &'a str,
    value_name: &'a str,
    help: &'a str,
) -> Arg<'a>
    ensures rule { rule_of result ≡ option name.entry.now }
    ensures local { result.global ≡ false }
{
    Arg::new(alloc, name)
        .long(name)
        .value_name(value_name)
        .action(ArgAction::Set)
        .help(help)
}

fn option_of<'a>(alloc: Global, name: &'a str, takes: Takes, help: &'a str) -> Arg<'a>
    ensures rule { rule_of result ≡ rule_for name.entry.now takes }
    ensures local { result.global ≡ false }
{
    match takes {
        Takes::NeededFile => option_with_value(alloc, name, "FILE", help).required(true),
        Takes::File => option_with_value(alloc, name, "FILE", help),
        Takes::Side => {
            option_with_value(alloc, name, "NUMBER", help).value_parser(value_parser!(u16))
        }
        Takes::Whole(None) => {
            option_with_value(alloc, name, "NUMBER", help).value_parser(value_parser!(u64))
        }
        Takes::Whole(Some(default)) => option_with_value(alloc, name, "NUMBER", help)
            .value_parser(value_parser!(u64))
            .default_value(default),
        Takes::Decimal(default) => {
            option_with_value(alloc, name, "NUMBER", help).default_value(default)
        }
    }
}

/// The subcommand `command` with `options`. Its help shows them in this order.
pub fn with_options<'a>(
    alloc: Global,
    mut command: Command<'a>,
    options: &[OptionRow],
) -> Result<Command<'a>, AllocError>
    ensures options { IfOk result (λ made.
        app_of made ≡
        with_rules (app_of command.entry) (map (λ row. rule_for row.0.now row.1) options.now)) }
{
    for (name, takes, help) in options {
        command = command.arg(option_of(alloc, name, *takes, help))?;
    }
    Ok(command)
}

// The text that was given for an option, if there is one.
fn given<'a>(matches: &ArgMatches<'a>, option: &str) -> Option<&'a str>
    ensures { option_map (λ text. text.now) result ≡
        first_of option.now (rows_of (found_of matches.now)) }
{
    matches.get_str(option)
}

/// The file name that was given for an option; empty if there is none.
pub fn file_name(
    alloc: Global,
    matches: &ArgMatches<'_>,
    option: &str,
) -> Result<Vec<u8>, AllocError>
    ensures { IfOk result (λ name.
        GivesName (rows_of (found_of matches.now)) option.now name.items) }
{
    as_bytes(alloc, given(matches, option).unwrap_or(""))
}

/// The file name that was given for an option, if there is one.
pub fn optional_name(
    alloc: Global,
    matches: &ArgMatches<'_>,
    option: &str,
) -> Result<Option<Vec<u8>>, AllocError>
    ensures { IfOk result (λ name.
        GivesOptionalName (rows_of (found_of matches.now)) option.now
        (option_map (λ bytes. bytes.items) name)) }
{
    match given(matches, option) {
        Some(text) => Ok(Some(as_bytes(alloc, text)?)),
        None => Ok(None),
    }
}

/// The whole number that was given for an option, if there is one.
pub fn whole(matches: &ArgMatches<'_>, option: &str) -> Option<u64>
    ensures { GivesNumber 64 (rows_of (found_of matches.now)) option.now result }
{
    matches.get_one::<u64>(option)
}

/// The number of columns or rows that was given for an option, if there is one.
pub fn side(matches: &ArgMatches<'_>, option: &str) -> Option<u16>
    ensures { GivesNumber 16 (rows_of (found_of matches.now)) option.now result }
{
    matches.get_one::<u16>(option)
}

/// The number of an option that has a default.
pub fn number(matches: &ArgMatches<'_>, option: &str) -> u64
    ensures { GivesDefault (rows_of (found_of matches.now)) option.now result }
{
    whole(matches, option).unwrap_or(0)
}

/// The text of an option that has a default.
pub fn text(alloc: Global, matches: &ArgMatches<'_>, option: &str) -> Result<Vec<u8>, AllocError>
    ensures { IfOk result (λ text.
        GivesText (rows_of (found_of matches.now)) option.now text.items) }
{
    Vec::from_slice(alloc, given(matches, option).unwrap_or("").as_bytes())
}
