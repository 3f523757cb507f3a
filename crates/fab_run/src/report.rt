//! The lines of a run's report.

ghost use Rattle.std.specs.Prelude.{◌≡◌, ◌++◌, IfOk, OnOk};
ghost use Rattle.fab_run.specs.RunReport.{array_text, blocks_line, design_text, final_line as final_text, stage_line as stage_text, stage_name, start_line as start_text};

use fab_arch::Grid;
use fab_net::Design;
use fab_sched::Stage;
use fab_text::{push_fixed3, push_fixed4, push_number};
use std::alloc::{AllocError, Global};

/// The first two lines: the design and its array, and the cost at the start.
pub(crate) fn head_lines(
    alloc: Global,
    design: &Design,
    grid: &Grid,
    cost: u64,
) -> Result<Vec<u8>, AllocError>
    ensures { IfOk result (λ v. v.items ≡ blocks_line design.now grid.now ++ start_text cost) }
{
    let mut lines = Vec::new(alloc);
    push_design(&mut lines, design)?;
    push_array(&mut lines, grid)?;
    push_start(&mut lines, cost)?;
    Ok(lines)
}

fn push_start(lines: &mut Vec<u8>, cost: u64) -> Result<(), AllocError>
    ensures { OnOk result (lines.new.items ≡ lines.old.items ++ start_text cost) }
{
    lines.extend_from_slice(b"start cost ")?;
    push_fixed4(lines, cost)?;
    lines.extend_from_slice(b"\n")?;
    Ok(())
}

fn push_design(lines: &mut Vec<u8>, design: &Design) -> Result<(), AllocError>
    ensures { OnOk result (lines.new.items ≡ lines.old.items ++ design_text design.now) }
{
    lines.extend_from_slice(b"blocks ")?;
    push_number(lines, design.blocks() as u64)?;
    lines.extend_from_slice(b" logic ")?;
    push_number(lines, design.logic_blocks() as u64)?;
    lines.extend_from_slice(b" pads ")?;
    push_number(lines, design.pads() as u64)?;
    lines.extend_from_slice(b" nets ")?;
    push_number(lines, design.nets() as u64)?;
    Ok(())
}

fn push_array(lines: &mut Vec<u8>, grid: &Grid) -> Result<(), AllocError>
    ensures { OnOk result (lines.new.items ≡ lines.old.items ++ array_text grid.now) }
{
    lines.extend_from_slice(b" array ")?;
    push_number(lines, u64::from(grid.nx()))?;
    lines.extend_from_slice(b" x ")?;
    push_number(lines, u64::from(grid.ny()))?;
    lines.extend_from_slice(b"\n")?;
    Ok(())
}

/// The line of a stage that ended: its index, its temperature in ten-thousandths, its range in thousandths, the moves of a stage, how many
/// of them were accepted, and the cost at its end in ten-thousandths.
pub(crate) fn stage_line(
    alloc: Global,
    stage: &Stage,
    moves: u64,
    accepted: u64,
    cost: u64,
) -> Result<Vec<u8>, AllocError>
    ensures { IfOk result (λ v.
        v.items ≡
        stage_text stage.now.index stage.now.t stage.now.range moves accepted cost) }
{
    let mut line = Vec::new(alloc);
    push_stage(&mut line, stage.index, stage.t)?;
    line.extend_from_slice(b" range ")?;
    push_fixed3(&mut line, stage.range)?;
    line.extend_from_slice(b" moves ")?;
    push_number(&mut line, moves)?;
    line.extend_from_slice(b" accepted ")?;
    push_number(&mut line, accepted)?;
    line.extend_from_slice(b" cost ")?;
    push_fixed4(&mut line, cost)?;
    line.extend_from_slice(b"\n")?;
    Ok(line)
}

fn push_stage(line: &mut Vec<u8>, index: u64, t: u64) -> Result<(), AllocError>
    ensures { OnOk result (line.new.items ≡ line.old.items ++ stage_name index t) }
{
    if t == 0 {
        line.extend_from_slice(b"frozen")?;
        return Ok(());
    }
    line.extend_from_slice(b"stage ")?;
    push_number(line, index)?;
    line.extend_from_slice(b" t ")?;
    push_fixed4(line, t)?;
    Ok(())
}

/// The last line: the cost at the end in ten-thousandths, and how many of all moves were accepted.
pub(crate) fn final_line(
    alloc: Global,
    cost: u64,
    accepted: u64,
    moves: u64,
) -> Result<Vec<u8>, AllocError>
    ensures { IfOk result (λ v. v.items ≡ final_text cost accepted moves) }
{
    let mut line = Vec::new(alloc);
    line.extend_from_slice(b"final cost ")?;
    push_fixed4(&mut line, cost)?;
    line.extend_from_slice(b" accepted ")?;
    push_number(&mut line, accepted)?;
    line.extend_from_slice(b" of ")?;
    push_number(&mut line, moves)?;
    line.extend_from_slice(b"\n")?;
    Ok(line)
}
