//! The header of a placement text: two lines, the second with the size of the array.

ghost use Rattle.std.specs.Prelude.{◌≡◌, Some, None, drop, IfOk, IfErr, OnOk};
ghost use Rattle.std.specs.Option.{option_map};
ghost use Rattle.fab_text.specs.Lines.{lines};
ghost use Rattle.fab_text.specs.Shown.{shown};
ghost use Rattle.fab_file.specs.Place.{is_files_line, is_size_line, size_in, both, header_size, place_size_of};
ghost use Rattle.fab_file.specs.PlaceFaults.{FaultIs, size_fault, size_fault_by};

use crate::fault::PlaceFault;
use crate::words::{is_word, small_number, word_at};
use fab_arch::Grid;
use fab_text::{Line, Lines};
use std::alloc::Global;

/// Whether a line is `Netlist file: A   Architecture file: B`.
pub(crate) fn is_files_line(line: &Line) -> bool
    ensures { result ≡ is_files_line (shown line.now) }
{
    line.words.len() == 6
        && (is_word(line, 0, b"Netlist") && is_word(line, 1, b"file:"))
        && (is_word(line, 3, b"Architecture") && is_word(line, 4, b"file:"))
}

fn is_size_line(line: &Line) -> bool
    ensures { result ≡ is_size_line (shown line.now) }
{
    line.words.len() == 7
        && (is_word(line, 0, b"Array") && is_word(line, 1, b"size:"))
        && is_word(line, 3, b"x")
        && (is_word(line, 5, b"logic") && is_word(line, 6, b"blocks"))
}

fn both(x: Option<u16>, y: Option<u16>) -> Option<(u16, u16)>
    ensures { result ≡ both x y }
{
    let x = x?;
    let y = y?;
    Some((x, y))
}

/// The columns and rows that a line `Array size: NX x NY logic blocks` gives.
pub(crate) fn size_in(line: &Line) -> Option<(u16, u16)>
    ensures { result ≡ size_in (shown line.now) }
{
    if is_size_line(line) {
        both(
            small_number(word_at(line, 2)),
            small_number(word_at(line, 4)),
        )
    } else {
        None
    }
}

/// The columns and rows that a header gives, or `BadHeader`. `files` and `size` are its two lines, if they exist. Allocates nothing.
fn header_size(files: &Option<Line>, size: &Option<Line>) -> Result<(u16, u16), PlaceFault>
    ensures size { IfOk result (λ r.
        header_size (option_map (λ l. shown l) files.now) (option_map (λ l. shown l) size.now) ≡
        Some r) }
    ensures fault { IfErr result (λ e.
        size_fault (header_size (option_map (λ l. shown l) files.now)
        (option_map (λ l. shown l) size.now)) ≡ Some e) }
{
    let Some(files) = files else {
        return Err(PlaceFault::BadHeader);
    };
    let Some(size) = size else {
        return Err(PlaceFault::BadHeader);
    };
    if !is_files_line(files) {
        return Err(PlaceFault::BadHeader);
    }
    match size_in(size) {
        Some(sides) => Ok(sides),
        None => Err(PlaceFault::BadHeader),
    }
}

/// Takes the header's two lines from the lines of a placement text, and returns the columns and rows that they give.
pub(crate) fn take_size(left: &mut Lines) -> Result<(u16, u16), PlaceFault>
    ensures size { IfOk result (λ r. place_size_of left.old ≡ Some r) }
    ensures rest { OnOk result (left.new ≡ drop 2 left.old) }
    ensures fault { IfErr result (λ e. FaultIs e (size_fault (place_size_of left.old))) }
{
    let files = left.next()?;
    let size = left.next()?;
    header_size(&files, &size)
}

/// Compares the columns and rows that a header gives with those of the array. Returns `WrongSize` if they differ. Allocates nothing.
pub(crate) fn check_size(grid: &Grid, nx: u16, ny: u16) -> Result<(), PlaceFault>
    ensures ok { OnOk result (size_fault_by grid.now (Some (nx, ny)) ≡ None) }
    ensures fault { IfErr result (λ e. size_fault_by grid.now (Some (nx, ny)) ≡ Some e) }
{
    if nx != grid.nx() || ny != grid.ny() {
        return Err(PlaceFault::WrongSize);
    }
    Ok(())
}

/// The columns and rows that the header of a placement text gives, or `BadHeader`. Does not read the lines after the header. Returns
/// `NoMemory` if memory runs out.
pub fn place_size(alloc: Global, bytes: &[u8]) -> Result<(u16, u16), PlaceFault>
    ensures size { IfOk result (λ r. place_size_of (lines bytes.now) ≡ Some r) }
    ensures fault { IfErr result (λ e. FaultIs e (size_fault (place_size_of (lines bytes.now)))) }
{
    take_size(&mut Lines::new(alloc, bytes))
}
