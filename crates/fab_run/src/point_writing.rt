//! Writes a point of a run as a checkpoint text, from which the run can be resumed.

ghost use Rattle.std.specs.Prelude.{◌≡◌, ◌≢◌, ◌⊎◌, ◌++◌, length, codes, decimal, OnOk, IfOk, IfErr};
ghost use Rattle.std.specs.List.{flat_map};
ghost use Rattle.std.specs.Io.KnownBytes.{Appends};
ghost use Rattle.fab_text.specs.Lines.{lines};
ghost use Rattle.fab_net.specs.Netlist.{IsLawful};
ghost use Rattle.fab_arch.specs.Grid.{AreLimits};
ghost use Rattle.fab_sched.specs.Annealing.{IsLawful as IsLawfulPlan};
ghost use Rattle.fab_file.specs.Written.{IsCut, ended};
ghost use Rattle.fab_run.specs.declared.point_fault.PointFault.TheVariants.{NoMemory, Write};
ghost use Rattle.fab_run.specs.PointMeaning.{StandsForPoint};
ghost use Rattle.fab_run.specs.PointText.{IsWritable, PointsReadBack, array_text, cooling_text, failed_with, field_text, fixed_blocks, fixed_lines, head_lines, place_lines, point_text, schedule_text, seat_text, stage_lines, stage_text};

use crate::point_fault::PointFault;
use fab_arch::{Grid, Site};
use fab_commit::Point;
use fab_net::{BlockId, Design};
use fab_sched::{Cooling, Schedule, Stage};
use fab_site::{Fixed, Placement};
use fab_text::{Sink, push_number, write_whole};
use std::alloc::{AllocError, Global};

/// Appends a line `NAME N`.
fn push_field(text: &mut Vec<u8>, name: &[u8], n: u64) -> Result<(), AllocError>
    ensures { OnOk result (text.new.items ≡ text.old.items ++ ended (field_text name.now n)) }
{
    text.extend_from_slice(name)?;
    text.extend_from_slice(b" ")?;
    push_number(text, n)?;
    text.extend_from_slice(b"\n")?;
    Ok(())
}

/// Appends the line of the array.
fn push_array(text: &mut Vec<u8>, grid: &Grid) -> Result<(), AllocError>
    ensures text { OnOk result (text.new.items ≡ text.old.items ++ ended (array_text grid.now)) }
    ensures limits { OnOk result (AreLimits grid.now.nx grid.now.ny grid.now.io_rat) }
{
    text.extend_from_slice(b"array ")?;
    push_number(text, u64::from(grid.nx()))?;
    text.extend_from_slice(b" x ")?;
    push_number(text, u64::from(grid.ny()))?;
    text.extend_from_slice(b" io_rat ")?;
    push_number(text, u64::from(grid.io_rat()))?;
    text.extend_from_slice(b"\n")?;
    Ok(())
}

/// Appends a factor, or the word for adaptive cooling.
fn push_cooling(text: &mut Vec<u8>, cooling: Cooling) -> Result<(), AllocError>
    ensures { OnOk result (text.new.items ≡ text.old.items ++ cooling_text cooling) }
{
    match cooling {
        Cooling::Factor(factor) => push_number(text, factor),
        Cooling::Adaptive => {
            text.extend_from_slice(b"adaptive")?;
            Ok(())
        }
    }
}

/// Appends the beginning of the line of the schedule, up to its temperatures.
fn push_temperatures(text: &mut Vec<u8>, schedule: &Schedule) -> Result<(), AllocError>
    ensures { OnOk result
        (text.new.items ≡
        text.old.items ++
        (codes "schedule " ++ decimal schedule.now.init ++ codes " " ++
        decimal schedule.now.exit ++ codes " ")) }
{
    text.extend_from_slice(b"schedule ")?;
    push_number(text, schedule.init_t())?;
    text.extend_from_slice(b" ")?;
    push_number(text, schedule.exit_t())?;
    text.extend_from_slice(b" ")?;
    Ok(())
}

/// Appends the line of the schedule.
fn push_schedule(text: &mut Vec<u8>, schedule: &Schedule) -> Result<(), AllocError>
    ensures text { OnOk result
        (text.new.items ≡ text.old.items ++ ended (schedule_text schedule.now)) }
    ensures lawful { OnOk result (IsLawfulPlan schedule.now) }
{
    push_temperatures(text, schedule)?;
    push_cooling(text, schedule.cooling())?;
    text.extend_from_slice(b" ")?;
    push_number(text, schedule.moves())?;
    text.extend_from_slice(b"\n")?;
    Ok(())
}

/// Appends the line of the running stage.
fn push_stage(text: &mut Vec<u8>, stage: &Stage) -> Result<(), AllocError>
    ensures { OnOk result (text.new.items ≡ text.old.items ++ ended (stage_text stage.now)) }
{
    text.extend_from_slice(b"stage ")?;
    push_number(text, stage.index)?;
    text.extend_from_slice(b" done ")?;
    push_number(text, stage.done)?;
    text.extend_from_slice(b" accepted ")?;
    push_number(text, stage.accepted)?;
    text.extend_from_slice(b"\n")?;
    Ok(())
}

/// Appends the lines up to the schedule.
fn push_head(
    text: &mut Vec<u8>,
    seed: u64,
    grid: &Grid,
    schedule: &Schedule,
) -> Result<(), AllocError>
    ensures text { OnOk result
        (text.new.items ≡
        text.old.items ++ flat_map ended (head_lines seed grid.now schedule.now)) }
    ensures limits { OnOk result (AreLimits grid.now.nx grid.now.ny grid.now.io_rat) }
    ensures lawful { OnOk result (IsLawfulPlan schedule.now) }
{
    text.extend_from_slice(b"vplace point 2\n")?;
    push_field(text, b"seed", seed)?;
    push_array(text, grid)?;
    push_schedule(text, schedule)?;
    Ok(())
}

/// Appends the lines of the running stage, and of the moves accepted in all.
fn push_place_in_run(text: &mut Vec<u8>, stage: &Stage, total: u64) -> Result<(), AllocError>
    ensures { OnOk result
        (text.new.items ≡ text.old.items ++ flat_map ended (stage_lines stage.now total)) }
{
    push_stage(text, stage)?;
    push_field(text, b"temperature", stage.t)?;
    push_field(text, b"range", stage.range)?;
    push_field(text, b"total", total)?;
    Ok(())
}

/// How many blocks of the design are fixed.
fn fixed_count(design: &Design, fixed: &Fixed) -> u64
    ensures { result ≡ length (fixed_blocks design.now fixed.now) }
{
    let mut count: u64 = 0;
    for b in 0..design.blocks() {
        if fixed.site_of(BlockId(b as u32)).is_some() {
            count += 1;
        }
    }
    count
}

/// Appends the line of a fixed block.
fn push_fixed_line(text: &mut Vec<u8>, name: &[u8]) -> Result<(), AllocError>
    ensures { OnOk result (text.new.items ≡ text.old.items ++ ended (name.now ++ codes " fixed")) }
{
    text.extend_from_slice(name)?;
    text.extend_from_slice(b" fixed")?;
    text.extend_from_slice(b"\n")?;
    Ok(())
}

/// Appends the number of fixed blocks, and the line of each.
fn push_fixed(text: &mut Vec<u8>, design: &Design, fixed: &Fixed) -> Result<(), AllocError>
    ensures { OnOk result
        (text.new.items ≡ text.old.items ++ flat_map ended (fixed_lines design.now fixed.now)) }
{
    push_field(text, b"fixed", fixed_count(design, fixed))?;
    for b in 0..design.blocks() {
        let block = BlockId(b as u32);
        if fixed.site_of(block).is_some() {
            push_fixed_line(text, design.name(block))?;
        }
    }
    Ok(())
}

/// Appends a space and a number.
fn push_column(text: &mut Vec<u8>, n: u16) -> Result<(), AllocError>
    ensures { OnOk result (text.new.items ≡ text.old.items ++ codes " " ++ decimal n) }
{
    text.extend_from_slice(b" ")?;
    push_number(text, u64::from(n))?;
    Ok(())
}

/// Appends the line of the site of a block.
fn push_place(text: &mut Vec<u8>, name: &[u8], site: Site) -> Result<(), AllocError>
    ensures { OnOk result (text.new.items ≡ text.old.items ++ ended (seat_text name.now site)) }
{
    text.extend_from_slice(name)?;
    push_column(text, site.x)?;
    push_column(text, site.y)?;
    push_column(text, site.sub)?;
    text.extend_from_slice(b"\n")?;
    Ok(())
}

/// Appends the number of blocks, and the line of the site of each.
fn push_places(text: &mut Vec<u8>, design: &Design, placement: &Placement) -> Result<(), AllocError>
    requires { length placement.now.sites ≡ length design.now.kinds }
    ensures text { OnOk result
        (text.new.items ≡
        text.old.items ++ flat_map ended (place_lines design.now placement.now.sites)) }
    ensures lawful { OnOk result (IsLawful design.now) }
{
    push_field(text, b"places", design.blocks() as u64)?;
    for b in 0..design.blocks() {
        let block = BlockId(b as u32);
        push_place(text, design.name(block), placement.site_of(block))?;
    }
    Ok(())
}

/// The text of a point.
fn text_of(
    alloc: Global,
    seed: u64,
    design: &Design,
    grid: &Grid,
    point: &Point,
) -> Result<Vec<u8>, AllocError>
    requires { length point.now.placement.sites ≡ length design.now.kinds }
    ensures text { IfOk result (λ v. v.items ≡ point_text seed design.now grid.now point.now) }
    ensures design { OnOk result (IsLawful design.now) }
    ensures limits { OnOk result (AreLimits grid.now.nx grid.now.ny grid.now.io_rat) }
    ensures schedule { OnOk result (IsLawfulPlan point.now.schedule) }
{
    let mut text = Vec::new(alloc);
    push_head(&mut text, seed, grid, &point.schedule)?;
    push_place_in_run(&mut text, &point.stage, point.total)?;
    push_fixed(&mut text, design, &point.fixed)?;
    push_places(&mut text, design, &point.placement)?;
    text.extend_from_slice(b"end\n")?;
    Ok(text)
}

/// Writes the checkpoint text, in the second version, of a point of a run with this seed, for a design on an array that holds it. If memory
/// runs out, nothing is written; if the writer fails, it has taken a beginning of the text.
pub fn write_point<W: Sink>(
    alloc: Global,
    out: &mut W,
    seed: u64,
    design: &Design,
    grid: &Grid,
    point: &Point,
) -> Result<(), PointFault>
    requires { IsWritable design.now grid.now point.now }
    // What is written is the text.
    ensures whole { OnOk result
        (Appends (W.contents out.old) (W.contents out.new)
        (point_text seed design.now grid.now point.now)) }
    // What is written reads back: it stands for the seed, the array and the point.
    ensures back { OnOk result
        (StandsForPoint grid.now.io_rat design.now
        (lines (point_text seed design.now grid.now point.now)) seed grid.now point.now) }
    ensures only { IfErr result (λ e. (e ≡ Write) ⊎ (e ≡ NoMemory)) }
    // If memory runs out, nothing is written. A writer that fails has taken a beginning.
    ensures silent { IfErr result (λ e. e ≡ NoMemory → W.contents out.new ≡ W.contents out.old) }
    ensures cut { IfErr result (λ e.
        e ≡ Write →
        IsCut (point_text seed design.now grid.now point.now) (W.contents out.old)
        (W.contents out.new)) }
    // The writer failed only if the answer says so.
    ensures sound { OnOk result (W.failed out.new ≡ W.failed out.old) }
    ensures failed { IfErr result (λ e. W.failed out.new ≡ failed_with e (W.failed out.old)) }
{
    let text = text_of(alloc, seed, design, grid, point)?;
    write_whole(out, &text)?;
    Ok(())
}

/// The law that the text of a point stands for its seed, its array and the point, so that `read_point` gives them back.
pub fn written_points_read_back()
    ensures { PointsReadBack }
{}
