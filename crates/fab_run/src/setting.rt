//! The checks before the first move of a run: what its texts and numbers mean.

ghost use Rattle.std.specs.Prelude.{◌≡◌, ℕ, ◌↔◌, ◌≤◌, true, List, Option, length, Some, IsTrue, OnOk, IfOk, IfErr, MatchResult, option_copied};
ghost use Rattle.fab_arch.specs.declared.array.Site.{Site};
ghost use Rattle.fab_arch.specs.Grid.{GridShape, shape};
ghost use Rattle.fab_net.specs.Netlist.{Netlist};
ghost use Rattle.fab_site.specs.Pins.{ArePins};
ghost use Rattle.fab_file.specs.Written.{are_labels as labels_are};
ghost use Rattle.fab_sched.specs.Annealing.{IsLawful, Plan, fault_of};
ghost use Rattle.fab_run.specs.Check.{FitsOn, IsSizeFault, IsTextFault};
ghost use Rattle.fab_run.specs.Setting.{ArePinned, AreStageMoves, HasPins, IsAskedPlan, IsSetting, IsSized, Setting, Within, setting_of, texts_of};
ghost use Rattle.fab_run.specs.RunChecks.{IsArrayFault, IsLocationFault, IsOptionFault, IsRunFault, IsThreadFault};
ghost use Rattle.fab_run.specs.declared.fault.RunFault.TheVariants.{NoMemory};

use crate::designs::read_design;
use crate::fault::{RunFault, pads_fault};
use crate::inputs::{Inputs, Moves, Options};
use fab_arch::{Grid, GridFault};
use fab_file::{PlaceFault, are_labels, read_pins};
use fab_net::Design;
use fab_sched::{Cooling, SchedFault, Schedule, moves_of};
use fab_site::{Fixed, Pins};
use std::alloc::Global;

/// The array of a run: of the given size (columns, rows), or the smallest square array that holds the design. `io_rat` is the number of
/// pads at a position.
///
/// Fails if the size is out of range, or if the array has too few logic sites or pad sites. Without a size, fails if no square array of
/// side 1,000 or less holds the design.
pub fn array_of(design: &Design, size: Option<(u16, u16)>, io_rat: u16) -> Result<Grid, GridFault>
    requires ratio { (1 ≤ io_rat) × (io_rat ≤ 64) }
    ensures ratio { IfOk result (λ g. g.io_rat ≡ io_rat) }
    ensures size { IfOk result (IsSized size design.now) }
    ensures fits { IfOk result (FitsOn design.now) }
    ensures only { (g : GridShape) → g.io_rat ≡ io_rat → IsSized size design.now g →
        FitsOn design.now g → MatchResult result (λ h. h ≡ g) (λ e. ⊥) }
    ensures fault { IfErr result (IsArrayFault size design.now io_rat) }
{
    match size {
        Some((nx, ny)) => array_of_size(design, nx, ny, io_rat),
        None => Grid::fit(design.logic_blocks(), design.pads(), io_rat),
    }
}

/// The array of this size, if it holds the design.
fn array_of_size(design: &Design, nx: u16, ny: u16, io_rat: u16) -> Result<Grid, GridFault>
    ensures grid { IfOk result (λ g. g ≡ shape nx ny io_rat) }
    ensures fits { IfOk result (FitsOn design.now) }
    ensures only { FitsOn design.now (shape nx ny io_rat) → IfErr result (λ e. ⊥) }
    ensures fault { IfErr result (IsSizeFault design.now (shape nx ny io_rat)) }
{
    let grid = Grid::new(nx, ny, io_rat)?;
    grid.holds(design.logic_blocks(), design.pads())?;
    Ok(grid)
}

/// The sites at which a location text fixes or starts blocks; no sites without such a text.
fn read_locations(
    alloc: Global,
    text: Option<&[u8]>,
    design: &Design,
    grid: &Grid,
) -> Result<Pins, RunFault>
    ensures found { IfOk result (λ p.
        ArePinned (option_copied text.entry) design.now grid.now p.fixed p.begun) }
    ensures lawful { IfOk result (λ p. ArePins design.now grid.now p.fixed p.begun) }
    ensures only { (fixed begun : List (Option Site)) →
        ArePinned (option_copied text.entry) design.now grid.now fixed begun →
        IfErr result (λ e. e ≡ NoMemory) }
    ensures fault { IfErr result (IsLocationFault (option_copied text.entry) design.now grid.now) }
{
    let Some(text) = text else {
        return Ok(Pins {
            fixed: Fixed::none(alloc),
            begun: Fixed::none(alloc),
        });
    };
    match read_pins(alloc, text, design, grid) {
        Ok(pins) => Ok(pins),
        Err(fault) => Err(pads_fault(fault)),
    }
}

/// How many moves a stage has; 0 if VPR's rule gives no allowed number.
fn stage_moves(moves: Moves, blocks: usize) -> u64
    requires { blocks ≤ 65535 }
    ensures asked { AreStageMoves moves blocks result }
    ensures only { (n : ℕ) → AreStageMoves moves blocks n → result ≡ n }
{
    match moves {
        Moves::Given(moves) => moves,
        Moves::Inner(inner) => moves_of(inner, blocks as u32).unwrap_or(0),
    }
}

/// The requested schedule, or its first fault.
fn schedule_of(options: &Options, blocks: usize) -> Result<Schedule, SchedFault>
    requires { blocks ≤ 65535 }
    ensures plan { IfOk result (IsAskedPlan options.now blocks) }
    ensures lawful { IfOk result IsLawful }
    ensures only { (p : Plan) → IsAskedPlan options.now blocks p → IsLawful p →
        MatchResult result (λ s. s ≡ p) (λ e. ⊥) }
    ensures fault { IfErr result (λ e.
        (p : Plan) × IsAskedPlan options.now blocks p × (fault_of p ≡ Some e)) }
{
    let moves = stage_moves(options.moves, blocks);
    match options.cooling {
        Cooling::Factor(alpha) => Schedule::new(options.init_t, options.exit_t, alpha, moves),
        Cooling::Adaptive => Schedule::adaptive(options.init_t, options.exit_t, moves),
    }
}

fn is_within(most: u64, n: u64) -> bool
    ensures { IsTrue result ↔ Within most n }
{
    1 <= n && n <= most
}

/// Checks that the batch, and then the number of workers, are within their limits.
pub(crate) fn check_threads(batch: u64, workers: u64) -> Result<(), RunFault>
    ensures batch { OnOk result (Within 4096 batch) }
    ensures workers { OnOk result (Within 64 workers) }
    ensures fault { IfErr result (IsThreadFault batch workers) }
{
    if !is_within(4096, batch) {
        return Err(RunFault::BatchOutOfRange);
    }
    if !is_within(64, workers) {
        return Err(RunFault::WorkersOutOfRange);
    }
    Ok(())
}

/// Reads the design, its array, and the sites at which blocks are fixed or start.
fn read_located(
    alloc: Global,
    inputs: &Inputs,
    options: &Options,
) -> Result<(Design, Grid, Pins), RunFault>
    ensures found { IfOk result (λ r.
        HasPins (texts_of inputs.now) options.now r.0 r.1 r.2.fixed r.2.begun) }
    ensures lawful { IfOk result (λ r. ArePins r.0 r.1 r.2.fixed r.2.begun) }
    ensures only { (d : Netlist) (g : GridShape) (fixed begun : List (Option Site)) →
        HasPins (texts_of inputs.now) options.now d g fixed begun →
        MatchResult result (λ r. (r.0 ≡ d) × (r.1 ≡ g)) (λ e. e ≡ NoMemory) }
    ensures fault { IfErr result (IsRunFault (texts_of inputs.now) options.now) }
    ensures text { IfErr result IsTextFault }
{
    let (io_rat, design) = read_design(alloc, inputs.arch, inputs.net)?;
    let grid = array_of(&design, options.size, io_rat)?;
    let pins = read_locations(alloc, inputs.pads, &design, &grid)?;
    Ok((design, grid, pins))
}

/// The schedule of a run, after the checks that follow the texts: labels, schedule, batch, workers.
fn read_schedule(inputs: &Inputs, options: &Options, blocks: usize) -> Result<Schedule, RunFault>
    requires { blocks ≤ 65535 }
    ensures labels { OnOk result
        (labels_are inputs.now.labels.net.now inputs.now.labels.arch.now ≡ true) }
    ensures plan { IfOk result (IsAskedPlan options.now blocks) }
    ensures lawful { IfOk result IsLawful }
    ensures batch { OnOk result (Within 4096 options.now.batch) }
    ensures workers { OnOk result (Within 64 options.now.workers) }
    ensures only { (s : Setting) → IsSetting (texts_of inputs.now) options.now s →
        length s.design.kinds ≡ blocks → IfErr result (λ e. ⊥) }
    ensures fault { IfErr result (IsOptionFault (texts_of inputs.now) options.now blocks) }
{
    if !are_labels(&inputs.labels) {
        return Err(RunFault::Place(PlaceFault::BadLabel));
    }
    let schedule = schedule_of(options, blocks)?;
    check_threads(options.batch, options.workers)?;
    Ok(schedule)
}

/// Reads and checks all that a run is given; fails with the first check that fails.
pub(crate) fn read_setting(
    alloc: Global,
    inputs: &Inputs,
    options: &Options,
) -> Result<(Design, Grid, Pins, Schedule), RunFault>
    ensures found { IfOk result (λ r.
        IsSetting (texts_of inputs.now) options.now (setting_of r.0 r.1 r.2.fixed r.2.begun r.3)) }
    ensures lawful { IfOk result (λ r. ArePins r.0 r.1 r.2.fixed r.2.begun) }
    ensures only { (s : Setting) → IsSetting (texts_of inputs.now) options.now s →
        IfErr result (λ e. e ≡ NoMemory) }
    ensures fault { IfErr result (IsRunFault (texts_of inputs.now) options.now) }
    ensures text { IfErr result IsTextFault }
{
    let (design, grid, pins) = read_located(alloc, inputs, options)?;
    let schedule = read_schedule(inputs, options, design.blocks())?;
    Ok((design, grid, pins, schedule))
}
