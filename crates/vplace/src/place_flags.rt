//! The subcommand `place` on the command line: its options, and what they give.

ghost use Rattle.std.specs.Prelude.{◌≡◌, IfOk, codes, false};
ghost use Rattle.clap.specs.Words.{found_of, rows_of, shape_of};
ghost use Rattle.vplace.specs.CommandLine.{command, place_options};
ghost use Rattle.vplace.specs.Given.{AreGivenBy};

use crate::options::{
    ARCH, BATCH, NET, OUT, OptionRow, SAVE, STOP, Takes, WORKERS, file_name, number, optional_name,
    side, text, whole, with_options,
};
use crate::requests::PlaceWords;
use clap::{ArgMatches, Command};
use std::alloc::{AllocError, Global};

const ABOUT: &str = "Place a design by simulated annealing, and write its placement";

const AFTER: &str = "Anneals stage by stage: each stage makes the same number of moves at one
temperature, and the next is colder. The last one, at 0, accepts no move that
costs more. Prints the design and its array, the cost at the start, a line for
each stage as it ends, and the final cost; then writes the placement. The same
files and numbers give the same bytes on every machine, whatever --batch and
--workers are.

Temperatures are in units of cost, 0.0001 to 107374.1824. The next one is the
last one times --alpha-t, 0.001 to 0.999; with `adaptive` the factor follows
the share of accepted moves, as in VPR. A stage makes --inner, 1 to 10000,
times the number of blocks to the power 4/3 moves, or --moves, 1 to 1073741824.
The seed is 0 to 18446744073709551615. Without --nx and --ny the array is the
smallest square that holds the design.

A line of the location file fixes a block at a site; with a last word `free`
the block only starts there.

With --stop and --save a run stops after this many moves, if any are left then,
and writes a checkpoint instead of the placement: `vplace resume` goes on from
it, on this or another machine. The reports of the pieces, joined as by cat,
are the report of the unbroken run, and the last piece writes its placement. A
run that ends before the stop writes the placement, and no checkpoint.

Examples:
  vplace place --arch c880_ble.arch --net c880_ble.net --out c880.place --seed 7
  vplace place --arch c880_ble.arch --net c880_ble.net --out c880.place \\
    --seed 7 --stop 100000 --save c880.point";

const PADS: &str = "The location file: lines `NAME X Y SUB [free]`";

const NX: &str = "The columns of the array, 1 to 1000, with --ny";

const NY: &str = "The rows of the array, 1 to 1000, with --nx";

const SEED: &str = "The seed of the random words";

const INIT_T: &str = "The first temperature";

const EXIT_T: &str = "The lowest temperature";

const ALPHA_T: &str = "The factor, or `adaptive`";

const INNER: &str = "The moves of a stage over blocks^(4/3)";

const MOVES: &str = "The moves of a stage; --inner is then ignored";

// The options by name, in the order of the help.
const OPTIONS: [OptionRow; 16] = [
    ARCH,
    NET,
    OUT,
    ("pads", Takes::File, PADS),
    ("nx", Takes::Side, NX),
    ("ny", Takes::Side, NY),
    ("seed", Takes::Whole(Some("1")), SEED),
    ("init-t", Takes::Decimal("100"), INIT_T),
    ("exit-t", Takes::Decimal("0.01"), EXIT_T),
    ("alpha-t", Takes::Decimal("0.8"), ALPHA_T),
    ("inner", Takes::Whole(Some("10")), INNER),
    ("moves", Takes::Whole(None), MOVES),
    BATCH,
    WORKERS,
    STOP,
    SAVE,
];

/// The subcommand.
pub fn place_command<'a>(alloc: Global) -> Result<Command<'a>, AllocError>
    ensures shape { IfOk result (λ made. shape_of made ≡ command (codes "place") place_options) }
{
    let command = Command::new(alloc, "place").about(ABOUT).after_help(AFTER);
    with_options(alloc, command, OPTIONS.as_slice())
}

/// What the options give.
pub fn place_words(alloc: Global, matches: &ArgMatches<'_>) -> Result<PlaceWords, AllocError>
    ensures { IfOk result (AreGivenBy (rows_of (found_of matches.now))) }
{
    Ok(PlaceWords {
        arch: file_name(alloc, matches, "arch")?,
        net: file_name(alloc, matches, "net")?,
        out: file_name(alloc, matches, "out")?,
        pads: optional_name(alloc, matches, "pads")?,
        nx: side(matches, "nx"),
        ny: side(matches, "ny"),
        seed: number(matches, "seed"),
        init_t: text(alloc, matches, "init-t")?,
        exit_t: text(alloc, matches, "exit-t")?,
        alpha_t: text(alloc, matches, "alpha-t")?,
        inner: number(matches, "inner"),
        moves: whole(matches, "moves"),
        batch: number(matches, "batch"),
        workers: number(matches, "workers"),
        stop: whole(matches, "stop"),
        save: optional_name(alloc, matches, "save")?,
    })
}
