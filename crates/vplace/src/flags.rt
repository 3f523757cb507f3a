//! The command line: its subcommands and options, and what the words ask for.

ghost use Rattle.std.specs.Prelude.{◌≡◌, [], IfErr, IfOk, Ok, codes, false, map};
ghost use Rattle.std.specs.String.{string_bytes};
ghost use Rattle.clap.specs.Words.{HasKind, app_of, found_of, rows_of, shape_of, subcommand_rows_of};
ghost use Rattle.vplace.specs.Asking.{Asks, IsAskedBy, IsOneOfThree, faults};
ghost use Rattle.vplace.specs.CommandLine.{check_options, command, shown_after_name, vplace};
ghost use Rattle.vplace.specs.Given.{AreGivenToCheck};
ghost use Rattle.vplace.specs.declared.flags.Asked.TheVariants.{Example};

use crate::arguments::as_text;
use crate::check_command::CheckNames;
use crate::options::{ARCH, NET, OptionRow, Takes, file_name, with_options};
use crate::place_flags::{place_command, place_words};
use crate::requests::{PlaceWords, ResumeWords};
use crate::resume_flags::{resume_command, resume_words};
use clap::{ArgMatches, Command, Error};
use std::alloc::{AllocError, Global};

/// What the words ask for.
#[derive(Drop)]
pub enum Asked {
    /// To check the built-in example.
    Example,
    /// To check a placement from files.
    Check(CheckNames),
    /// To place a design from files.
    Place(PlaceWords),
    /// To resume a run from a checkpoint file.
    Resume(ResumeWords),
}

const NAME: &str = "vplace";

const VERSION: &str = "1.0.0";

const ABOUT: &str = "Place FPGA designs by simulated annealing, after VPR 4.30; check placements";

const AFTER: &str = "Without a command, vplace checks a built-in example of four blocks on a 3 x 3
array. A run of `place` can stop early and write a checkpoint, from which
`resume` goes on.

Exit status:
  0  done
  1  a file or the size of the array is refused, or the design does not fit
  2  the command line is wrong, or one of its other numbers is out of range
  3  memory ran out
  4  a file cannot be read, or the report or a file cannot be written";

const CHECK_ABOUT: &str = "Check a placement: legal or not, and its wire cost";

const CHECK_AFTER: &str =
    "A placement is legal if each block of the netlist is on a site of its kind, and
no two blocks are on one site. Prints two lines, `legal B blocks on a NX x NY
array` and `cost C`, or one line on standard error that names the first fault,
such as `vplace: place: P8 Missing block 3`.

Example:
  vplace check --arch c880_ble.arch --net c880_ble.net --place c880_ble.place";

// The options of `check` by name, in the order of the help.
const CHECK_OPTIONS: [OptionRow; 3] = [
    ARCH,
    NET,
    (
        "place",
        Takes::NeededFile,
        "The placement: the array, and the site of each block",
    ),
];

fn check_command<'a>(alloc: Global) -> Result<Command<'a>, AllocError>
    ensures shape { IfOk result (λ made. shape_of made ≡ command (codes "check") check_options) }
{
    let command = Command::new(alloc, "check")
        .about(CHECK_ABOUT)
        .after_help(CHECK_AFTER);
    with_options(alloc, command, CHECK_OPTIONS.as_slice())
}

fn vplace_command<'a>(alloc: Global) -> Result<Command<'a>, AllocError>
    ensures app { IfOk result (λ made. app_of made ≡ vplace) }
{
    Command::new(alloc, NAME)
        .version(VERSION)
        // Words without a command are wrong. No words at all are right.
        .subcommand_required(true)
        .override_usage("vplace [COMMAND]")
        .about(ABOUT)
        .after_help(AFTER)
        .subcommand(place_command(alloc)?)?
        .subcommand(resume_command(alloc)?)?
        .subcommand(check_command(alloc)?)
}

fn check_names(alloc: Global, matches: &ArgMatches<'_>) -> Result<CheckNames, AllocError>
    ensures { IfOk result (AreGivenToCheck (rows_of (found_of matches.now))) }
{
    let arch = file_name(alloc, matches, "arch")?;
    let net = file_name(alloc, matches, "net")?;
    let place = file_name(alloc, matches, "place")?;
    Ok(CheckNames { arch, net, place })
}

// The words as the parser takes them, after the program's name.
fn shown_words(alloc: Global, words: &[Vec<u8>]) -> Result<Vec<String>, AllocError>
    ensures { IfOk result (λ texts.
        map string_bytes texts.items ≡ shown_after_name (map (λ word. word.items) words.now)) }
{
    let mut texts = Vec::new(alloc);
    texts.push(String::from_str(alloc, NAME)?)?;
    for word in words {
        texts.push(as_text(alloc, word.as_slice())?)?;
    }
    Ok(texts)
}

fn asked_for(alloc: Global, matches: &ArgMatches<'_>) -> Result<Asked, AllocError>
    requires { IsOneOfThree (subcommand_rows_of matches.now) }
    ensures { IfOk result (IsAskedBy (subcommand_rows_of matches.now)) }
{
    if let Some(place) = matches.subcommand_matches("place") {
        return Ok(Asked::Place(place_words(alloc, place)?));
    }
    if let Some(resume) = matches.subcommand_matches("resume") {
        return Ok(Asked::Resume(resume_words(alloc, resume)?));
    }
    match matches.subcommand_matches("check") {
        Some(check) => Ok(Asked::Check(check_names(alloc, check)?)),
        None => unreachable!("the parser takes no words without one of these"),
    }
}

/// What the words ask for. An error is what to print about wrong words, or the requested help. No words ask for the check of the built-in
/// example.
pub fn parse_words(alloc: Global, words: &[Vec<u8>]) -> Result<Asked, Error>
    ensures example { words.now ≡ [] → result ≡ Ok Example }
    ensures asked { IfOk result (Asks (map (λ word. word.items) words.now)) }
    ensures wrong { IfErr result (HasKind (faults (map (λ word. word.items) words.now))) }
{
    if words.is_empty() {
        return Ok(Asked::Example);
    }
    let texts = shown_words(alloc, words)?;
    let matches = vplace_command(alloc)?.try_get_matches_from(texts.as_slice())?;
    Ok(asked_for(alloc, &matches)?)
}
