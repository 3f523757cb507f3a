//! The words of the lines of a checkpoint text.

ghost use Rattle.std.specs.Prelude.{◌≡◌};
ghost use Rattle.fab_text.specs.Shown.{shown};
ghost use Rattle.fab_run.specs.PointFields.{array_in, cooling_in, factor, is_end, is_fixed_line, number_at, number_in, schedule_from, schedule_in, stage_in, three, version_in, version_of};

use fab_file::words::{is_word, word_at};
use fab_sched::Cooling;
use fab_text::{Line, decimal};

/// The version of a checkpoint text.
#[derive(Clone, Copy, Debug, PartialEq, Eq)]
pub(crate) enum Version {
    /// The schedule's factor gives the temperature of a stage, and only pads are fixed.
    One,
    /// The text gives the temperature, the schedule may be adaptive, and any block may be fixed.
    Two,
}

fn version_of(line: &Line) -> Option<Version>
    ensures { result ≡ version_of (shown line.now) }
{
    if is_word(line, 2, b"1") {
        Some(Version::One)
    } else if is_word(line, 2, b"2") {
        Some(Version::Two)
    } else {
        None
    }
}

/// The version that a line `vplace point V` gives.
pub(crate) fn version_in(line: &Line) -> Option<Version>
    ensures { result ≡ version_in (shown line.now) }
{
    if line.words.len() == 3 && (is_word(line, 0, b"vplace") && is_word(line, 1, b"point")) {
        version_of(line)
    } else {
        None
    }
}

/// The whole number of 64 bits at word `i` of a line.
fn number_at(line: &Line, i: usize) -> Option<u64>
    ensures { result ≡ number_at (shown line.now) i }
{
    match decimal(word_at(line, i), 0) {
        Ok(n) => Some(n),
        Err(_) => None,
    }
}

/// The number that a line `NAME N` gives.
pub(crate) fn number_in(line: &Line, name: &[u8]) -> Option<u64>
    ensures { result ≡ number_in name.now (shown line.now) }
{
    if line.words.len() == 2 && is_word(line, 0, name) {
        number_at(line, 1)
    } else {
        None
    }
}

fn three(a: Option<u64>, b: Option<u64>, c: Option<u64>) -> Option<(u64, u64, u64)>
    ensures { result ≡ three a b c }
{
    let a = a?;
    let b = b?;
    let c = c?;
    Some((a, b, c))
}

/// The columns, the rows and the pads at a position that a line `array NX x NY io_rat R` gives.
pub(crate) fn array_in(line: &Line) -> Option<(u64, u64, u64)>
    ensures { result ≡ array_in (shown line.now) }
{
    if line.words.len() == 6
        && is_word(line, 0, b"array")
        && (is_word(line, 2, b"x") && is_word(line, 4, b"io_rat"))
    {
        three(number_at(line, 1), number_at(line, 3), number_at(line, 5))
    } else {
        None
    }
}

fn factor(number: Option<u64>) -> Option<Cooling>
    ensures { result ≡ factor number }
{
    let number = number?;
    Some(Cooling::Factor(number))
}

fn cooling_in(version: Version, line: &Line) -> Option<Cooling>
    ensures { result ≡ cooling_in version (shown line.now) }
{
    match version {
        Version::One => factor(number_at(line, 3)),
        Version::Two => {
            if is_word(line, 3, b"adaptive") {
                Some(Cooling::Adaptive)
            } else {
                factor(number_at(line, 3))
            }
        }
    }
}

fn schedule_from(
    init: Option<u64>,
    exit: Option<u64>,
    cooling: Option<Cooling>,
    moves: Option<u64>,
) -> Option<(u64, u64, Cooling, u64)>
    ensures { result ≡ schedule_from init exit cooling moves }
{
    let init = init?;
    let exit = exit?;
    let cooling = cooling?;
    let moves = moves?;
    Some((init, exit, cooling, moves))
}

/// What a line `schedule I E A M` or `schedule I E adaptive M` gives: the first and the lowest temperature, how it cools, and the moves of
/// a stage.
pub(crate) fn schedule_in(version: Version, line: &Line) -> Option<(u64, u64, Cooling, u64)>
    ensures { result ≡ schedule_in version (shown line.now) }
{
    if line.words.len() == 5 && is_word(line, 0, b"schedule") {
        schedule_from(
            number_at(line, 1),
            number_at(line, 2),
            cooling_in(version, line),
            number_at(line, 4),
        )
    } else {
        None
    }
}

/// What a line `stage X done D accepted S` gives: an index, the moves made, and the moves accepted.
pub(crate) fn stage_in(line: &Line) -> Option<(u64, u64, u64)>
    ensures { result ≡ stage_in (shown line.now) }
{
    if line.words.len() == 6
        && is_word(line, 0, b"stage")
        && (is_word(line, 2, b"done") && is_word(line, 4, b"accepted"))
    {
        three(number_at(line, 1), number_at(line, 3), number_at(line, 5))
    } else {
        None
    }
}

/// Whether a line is `NAME fixed`.
pub(crate) fn is_fixed_line(line: &Line) -> bool
    ensures { result ≡ is_fixed_line (shown line.now) }
{
    line.words.len() == 2 && is_word(line, 1, b"fixed")
}

/// Whether a line is `end`.
pub(crate) fn is_end(line: &Line) -> bool
    ensures { result ≡ is_end (shown line.now) }
{
    line.words.len() == 1 && is_word(line, 0, b"end")
}
