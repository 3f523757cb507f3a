//! The subcommand `resume` on the command line: its options, and what they give.

ghost use Rattle.std.specs.Prelude.{◌≡◌, IfOk, codes, false};
ghost use Rattle.clap.specs.Words.{found_of, rows_of, shape_of};
ghost use Rattle.vplace.specs.CommandLine.{command, resume_options};
ghost use Rattle.vplace.specs.Given.{AreGivenToResume};

use crate::options::{
    ARCH, BATCH, NET, OUT, OptionRow, SAVE, STOP, Takes, WORKERS, file_name, number, optional_name,
    whole, with_options,
};
use crate::requests::ResumeWords;
use clap::{ArgMatches, Command};
use std::alloc::{AllocError, Global};

const ABOUT: &str = "Go on with a run from a checkpoint, and write its placement";

// The parser's own usage has 85 columns.
const USAGE: &str = "vplace resume [OPTIONS] --arch <FILE> --net <FILE> --point <FILE>
                     --out <FILE>";

const AFTER: &str = "A checkpoint is what `vplace place` or `vplace resume` wrote at its --save name
when it stopped. It holds the seed, the array, the schedule, the site of each
block, and which blocks are fixed; give the same architecture and netlist with
it. Prints the rest of the report: the lines of the stages that end from here
on, and the final cost. The reports of the pieces of a run, joined as by cat,
are the report of the unbroken run, and the last piece writes its placement.

With --stop and --save the run stops again after this many moves, counted from
its very first move, and writes a checkpoint instead of the placement.

Examples:
  vplace resume --arch c880_ble.arch --net c880_ble.net --point c880.point \\
    --out c880.place
  vplace resume --arch c880_ble.arch --net c880_ble.net --point c880.point \\
    --out c880.place --stop 200000 --save later.point";

// The options by name, in the order of the help.
const OPTIONS: [OptionRow; 8] = [
    ARCH,
    NET,
    (
        "point",
        Takes::NeededFile,
        "The checkpoint that the run goes on from",
    ),
    OUT,
    BATCH,
    WORKERS,
    STOP,
    SAVE,
];

/// The subcommand.
pub fn resume_command<'a>(alloc: Global) -> Result<Command<'a>, AllocError>
    ensures shape { IfOk result (λ made. shape_of made ≡ command (codes "resume") resume_options) }
{
    let command = Command::new(alloc, "resume")
        .override_usage(USAGE)
        .about(ABOUT)
        .after_help(AFTER);
    with_options(alloc, command, OPTIONS.as_slice())
}

/// What the options give.
pub fn resume_words(alloc: Global, matches: &ArgMatches<'_>) -> Result<ResumeWords, AllocError>
    ensures { IfOk result (AreGivenToResume (rows_of (found_of matches.now))) }
{
    Ok(ResumeWords {
        arch: file_name(alloc, matches, "arch")?,
        net: file_name(alloc, matches, "net")?,
        point: file_name(alloc, matches, "point")?,
        out: file_name(alloc, matches, "out")?,
        batch: number(matches, "batch"),
        workers: number(matches, "workers"),
        stop: whole(matches, "stop"),
        save: optional_name(alloc, matches, "save")?,
    })
}
