//! Reads a checkpoint text, line by line, in the order of its fields.

ghost use Rattle.std.specs.Prelude.{◌≡◌, ◌≢◌, ◌⊎◌, ℕ, ◌*◌, ◌+◌, ◌<◌, ◌≤◌, ◌^◌, [], ◌∷◌, List, Some, None, IfOk, IfErr, OnOk, IfSome, IfNone, IsTrue, ◌↔◌, MatchResult, codes, length, max, slice_index_or, true, false, if◌then◌else◌, option_map};
ghost use Rattle.fab_text.specs.Shown.{shown};
ghost use Rattle.fab_text.specs.Lines.{TextLine, lines};
ghost use Rattle.fab_text.specs.FirstFault.{TookNoFault};
ghost use Rattle.fab_arch.specs.Grid.{GridShape};
ghost use Rattle.fab_net.specs.Netlist.{IsLawful as IsLawfulDesign, Netlist};
ghost use Rattle.fab_site.specs.Placement.{fixed_at, site_of};
ghost use Rattle.fab_sched.specs.declared.schedules.Cooling.TheVariants.{Factor};
ghost use Rattle.fab_sched.specs.Annealing.{IsLawful, MayStand};
ghost use Rattle.fab_file.specs.Place.{block_in};
ghost use Rattle.fab_commit.specs.declared.run.point.Point.{Point as PointOf};
ghost use Rattle.fab_run.specs.declared.point_fault.PointFault.TheVariants.{BadField, BadVersion, NoMemory, OutOfRange};
ghost use Rattle.fab_run.specs.declared.point_fault.PointField.TheVariants.{Array, Fixed as FixedField, Places, Schedule as ScheduleField, Stage as StageField, Temperature, Range, Total};
ghost use Rattle.fab_run.specs.PointFields.{is_end, is_fixed_line, number_in, array_in, schedule_in, stage_in, version_in};
ghost use Rattle.fab_run.specs.PointMeaning.{IsArrayFor, IsSamePoint, MayBeFixed, StandsForPoint};
ghost use Rattle.fab_run.specs.PointFaults.{EndFault, HeadFault, HeatFault, IsFirstFault, IsPointFault, IsRangeOn, IsStageOf, IsTotal, ListFault, NamesFault, PointMeansOrFaults, SeatsFault, StageFault, fixed_fault, grid_of, name_fault, schedule_of, seat_fault};
ghost use Rattle.fab_run.specs.PointReading.{AreNamed, AreSeated, EndRead, HeadRead, HeatRead, IsFaultOfField, IsFaultOfLine, IsRead, NamesRead, Says, SeatsRead, StageRead};

use crate::point_fault::{PointFault, PointField};
use crate::point_words::{
    Version, array_in, is_end, is_fixed_line, number_in, schedule_in, stage_in, version_in,
};
use fab_arch::{Arch, Grid};
use fab_commit::Point;
use fab_file::words::word_at;
use fab_file::{PlaceFault, PlaceLines};
use fab_net::{BlockId, BlockKind, Design};
use fab_sched::{Cooling, Schedule, Stage};
use fab_site::{Fixed, Placement};
use fab_text::{Line, Lines};
use std::alloc::{AllocError, Global};

/// A line that has to be there.
fn present<'a>(line: Option<Line<'a>>) -> Result<Line<'a>, PointFault>
    ensures there { IfOk result (λ l. line.entry ≡ Some l) }
    ensures missing { IfErr result (λ e. (e ≡ BadField 0) × (line.entry ≡ None)) }
{
    match line {
        Some(line) => Ok(line),
        None => Err(PointFault::BadField(0)),
    }
}

/// Takes the next line, which has to be there. If memory runs out, nothing changes.
fn take_line<'a>(left: &mut Lines<'a>) -> Result<Line<'a>, PointFault>
    ensures ok { IfOk result (λ line. left.old ≡ shown line ∷ left.new) }
    ensures missing { IfErr result (λ e. (e ≡ NoMemory) ⊎ ((e ≡ BadField 0) × (left.old ≡ []))) }
    ensures stays { IfErr result (λ e. e ≡ NoMemory → left.new ≡ left.old) }
{
    let line = left.next()?;
    present(line)
}

/// The version that the first line gives, if there is a line.
fn version_field(first: &Option<Line>) -> Result<Version, PointFault>
    ensures read { IfOk result (λ v. IfSome first.now (λ l. version_in (shown l) ≡ Some v)) }
    ensures there { OnOk result (first.now ≢ None) }
    ensures fault { IfErr result (λ e.
        (e ≡ BadVersion) × IfSome first.now (λ l. version_in (shown l) ≡ None)) }
{
    let Some(line) = first else {
        return Err(PointFault::BadVersion);
    };
    match version_in(line) {
        Some(version) => Ok(version),
        None => Err(PointFault::BadVersion),
    }
}

/// Takes the first line, which gives the version. If memory runs out, nothing changes.
fn read_version(left: &mut Lines) -> Result<Version, PointFault>
    ensures read { IfOk result (λ v. IsRead version_in (λ v. Unit {0}) left.old v left.new) }
    ensures fault { IfErr result (λ e.
        (e ≡ NoMemory) ⊎ ((io_rat : ℕ) (d : Netlist) → IsFirstFault io_rat d left.old e)) }
    ensures stays { IfErr result (λ e. e ≡ NoMemory → left.new ≡ left.old) }
{
    let first = left.next()?;
    version_field(&first)
}

/// The number that a line gives, which is `NAME N`.
fn number_field(line: &Line, name: &[u8]) -> Result<u64, PointFault>
    ensures read { IfOk result (λ n. number_in name.now (shown line.now) ≡ Some n) }
    ensures fault { IfErr result (λ e. IsFaultOfLine e (number_in name.now) (shown line.now)) }
{
    match number_in(line, name) {
        Some(n) => Ok(n),
        None => Err(PointFault::BadField(line.number)),
    }
}

/// The array of these numbers, if it has the architecture's pads at a position and holds the design.
fn grid_from(numbers: (u64, u64, u64), io_rat: u16, design: &Design) -> Option<Grid>
    ensures grid { IfSome result (λ g. g ≡ grid_of numbers) }
    ensures lawful { IfSome result (λ g. IsArrayFor io_rat design.now g) }
    ensures none { result ≡ None → ¬ IsArrayFor io_rat design.now (grid_of numbers) }
{
    if numbers.0 > 1_000 || numbers.1 > 1_000 || numbers.2 != u64::from(io_rat) {
        return None;
    }
    let Ok(grid) = Grid::new(numbers.0 as u16, numbers.1 as u16, io_rat) else {
        return None;
    };
    match grid.holds(design.logic_blocks(), design.pads()) {
        Ok(()) => Some(grid),
        Err(_) => None,
    }
}

/// The array that a line gives.
fn array_field(line: &Line, io_rat: u16, design: &Design) -> Result<Grid, PointFault>
    ensures read { IfOk result (λ g.
        Says array_in (λ a.
        IsArrayFor io_rat design.now (grid_of a)) (shown line.now) (g.nx, g.ny, g.io_rat)) }
    ensures fault { IfErr result (λ e.
        IsFaultOfField e array_in (λ a.
        IsArrayFor io_rat design.now (grid_of a)) Array (shown line.now)) }
{
    let Some(numbers) = array_in(line) else {
        return Err(PointFault::BadField(line.number));
    };
    match grid_from(numbers, io_rat, design) {
        Some(grid) => Ok(grid),
        None => Err(PointFault::OutOfRange(PointField::Array)),
    }
}

/// The schedule of these numbers, if they are in their limits.
fn schedule_from(numbers: (u64, u64, Cooling, u64)) -> Option<Schedule>
    ensures schedule { IfSome result (λ s. s ≡ schedule_of numbers) }
    ensures lawful { IfSome result (λ s. IsLawful s) }
    ensures none { result ≡ None → ¬ IsLawful (schedule_of numbers) }
{
    let (init_t, exit_t, cooling, moves) = numbers;
    let made = match cooling {
        Cooling::Factor(factor) => Schedule::new(init_t, exit_t, factor, moves),
        Cooling::Adaptive => Schedule::adaptive(init_t, exit_t, moves),
    };
    match made {
        Ok(schedule) => Some(schedule),
        Err(_) => None,
    }
}

/// The schedule that a line gives.
fn schedule_field(line: &Line, version: Version) -> Result<Schedule, PointFault>
    ensures read { IfOk result (λ p.
        Says (schedule_in version) (λ s. IsLawful (schedule_of s)) (shown line.now)
        (p.init, p.exit, p.cooling, p.moves)) }
    ensures fault { IfErr result (λ e.
        IsFaultOfField e (schedule_in version) (λ s. IsLawful (schedule_of s)) ScheduleField
        (shown line.now)) }
{
    let Some(numbers) = schedule_in(version, line) else {
        return Err(PointFault::BadField(line.number));
    };
    match schedule_from(numbers) {
        Some(schedule) => Ok(schedule),
        None => Err(PointFault::OutOfRange(PointField::Schedule)),
    }
}

/// What a text gives before the running stage.
#[derive(Clone, Copy)]
struct Head {
    seed: u64,
    grid: Grid,
    schedule: Schedule,
}

/// The seed, the array and the schedule.
fn read_head(
    left: &mut Lines,
    version: Version,
    io_rat: u16,
    design: &Design,
) -> Result<Head, PointFault>
    ensures read { IfOk result (λ h.
        HeadRead version io_rat design.now left.old h.seed h.grid h.schedule left.new) }
    ensures fault { IfErr result (λ e.
        (e ≡ NoMemory) ⊎ HeadFault e io_rat design.now version (λ g p ls. ⊥) left.old) }
{
    let seed = number_field(&take_line(left)?, b"seed")?;
    let grid = array_field(&take_line(left)?, io_rat, design)?;
    let schedule = schedule_field(&take_line(left)?, version)?;
    Ok(Head {
        seed,
        grid,
        schedule,
    })
}

/// The index of the running stage, how many of its moves are made, and how many of these were accepted.
#[tactic(auto, using(crate::proofs::PointStages::earlier))]
fn stage_field(line: &Line, schedule: &Schedule) -> Result<(u64, u64, u64), PointFault>
    ensures read { IfOk result (λ x. Says stage_in (IsStageOf schedule.now) (shown line.now) x) }
    ensures small { IfOk result (λ x. (x.0 + 1) * schedule.now.moves < 2 ^ 61) }
    ensures fault { IfErr result (λ e.
        IsFaultOfField e stage_in (IsStageOf schedule.now) StageField (shown line.now)) }
{
    let Some(stage) = stage_in(line) else {
        return Err(PointFault::BadField(line.number));
    };
    let last = schedule.last_index();
    if stage.0 <= last && stage.1 < schedule.moves() && stage.2 <= stage.1 {
        Ok(stage)
    } else {
        Err(PointFault::OutOfRange(PointField::Stage))
    }
}

/// The temperature of a stage that a line gives.
fn temperature_field(line: &Line, schedule: &Schedule, index: u64) -> Result<u64, PointFault>
    ensures read { IfOk result (λ t.
        Says (number_in (codes "temperature")) (MayStand schedule.now index) (shown line.now) t) }
    ensures fault { IfErr result (λ e.
        IsFaultOfField e (number_in (codes "temperature")) (MayStand schedule.now index) Temperature
        (shown line.now)) }
{
    let t = number_field(line, b"temperature")?;
    if schedule.may_stand(index, t) {
        Ok(t)
    } else {
        Err(PointFault::OutOfRange(PointField::Temperature))
    }
}

/// The temperature of a stage, from the next line. In the first version, schedules cool by a factor, and the temperature is from the
/// schedule. If memory runs out, nothing changes.
fn read_temperature(
    left: &mut Lines,
    version: Version,
    schedule: &Schedule,
    index: u64,
) -> Result<u64, PointFault>
    requires one { version ≡ Version.One → (f : ℕ) × (schedule.now.cooling ≡ Factor f) }
    requires stage { (t : ℕ) × MayStand schedule.now index t }
    ensures read { IfOk result (λ t. HeatRead version schedule.now index left.old t left.new) }
    ensures fault { IfErr result (λ e.
        (e ≡ NoMemory) ⊎ HeatFault e version schedule.now index (λ t ls. ⊥) left.old) }
    ensures stays { IfErr result (λ e. e ≡ NoMemory → left.new ≡ left.old) }
{
    match version {
        Version::One => Ok(schedule.temperature(index).unwrap_or(0)),
        Version::Two => {
            let line = take_line(left)?;
            temperature_field(&line, schedule, index)
        }
    }
}

/// The range of the running stage, on an array.
fn range_field(line: &Line, grid: &Grid) -> Result<u64, PointFault>
    ensures read { IfOk result (λ r.
        Says (number_in (codes "range")) (IsRangeOn grid.now) (shown line.now) r) }
    ensures fault { IfErr result (λ e.
        IsFaultOfField e (number_in (codes "range")) (IsRangeOn grid.now) Range (shown line.now)) }
{
    let range = number_field(line, b"range")?;
    let side = u64::from(grid.nx().max(grid.ny()));
    if 1_000 <= range && range <= 1_000 * side {
        Ok(range)
    } else {
        Err(PointFault::OutOfRange(PointField::Range))
    }
}

/// How many moves were accepted in all: at least those of the running stage, and at most all moves made.
fn accepted_total_field(
    line: &Line,
    schedule: &Schedule,
    stage: (u64, u64, u64),
) -> Result<u64, PointFault>
    requires small { (stage.0 + 1) * schedule.now.moves < 2 ^ 61 }
    requires made { stage.1 < schedule.now.moves }
    ensures read { IfOk result (λ n.
        Says (number_in (codes "total")) (IsTotal schedule.now stage) (shown line.now) n) }
    ensures fault { IfErr result (λ e.
        IsFaultOfField e (number_in (codes "total")) (IsTotal schedule.now stage) Total
        (shown line.now)) }
{
    let total = number_field(line, b"total")?;
    let made = stage.0 * schedule.moves() + stage.1;
    if stage.2 <= total && total <= made {
        Ok(total)
    } else {
        Err(PointFault::OutOfRange(PointField::Total))
    }
}

/// The running stage, and the moves accepted in all.
fn read_stage(
    left: &mut Lines,
    version: Version,
    grid: &Grid,
    schedule: &Schedule,
) -> Result<(Stage, u64), PointFault>
    requires one { version ≡ Version.One → (f : ℕ) × (schedule.now.cooling ≡ Factor f) }
    ensures read { IfOk result (λ r.
        StageRead version grid.now schedule.now left.old r.0 r.1 left.new) }
    ensures fault { IfErr result (λ e.
        (e ≡ NoMemory) ⊎ StageFault e version grid.now schedule.now (λ ls. ⊥) left.old) }
{
    let made = stage_field(&take_line(left)?, schedule)?;
    let t = read_temperature(left, version, schedule, made.0)?;
    let range = range_field(&take_line(left)?, grid)?;
    let total = accepted_total_field(&take_line(left)?, schedule, made)?;
    let stage = Stage {
        index: made.0,
        t,
        range,
        done: made.1,
        accepted: made.2,
        frozen: t == 0,
    };
    Ok((stage, total))
}

/// Whether a block may be fixed: in the first version, only pads may.
fn may_be_fixed(version: Version, design: &Design, block: BlockId) -> bool
    requires { block.0 < length design.now.kinds }
    ensures { IsTrue result ↔ MayBeFixed version design.now block.0 }
{
    match version {
        Version::One => design.kind(block) != BlockKind::Logic,
        Version::Two => true,
    }
}

/// The block that a line names.
fn block_in(design: &Design, line: &Line) -> Option<BlockId>
    ensures block { option_map (λ b. b.0) result ≡ block_in design.now (shown line.now) }
    ensures within { IfSome result (λ b. b.0 < length design.now.kinds) }
{
    let _blocks = design.blocks();
    design.block_named(word_at(line, 0))
}

/// The block that a line `NAME fixed` names, which is not named yet.
fn named_block(
    line: &Line,
    version: Version,
    design: &Design,
    named: &[bool],
) -> Result<BlockId, PlaceFault>
    requires { length named.now ≡ length design.now.kinds }
    ensures ok { IfOk result (λ b.
        name_fault version design.now (λ b. slice_index_or named.now b false)
        (shown line.now).number (is_fixed_line (shown line.now))
        (block_in design.now (shown line.now)) ≡ None) }
    ensures named { IfOk result (λ b. block_in design.now (shown line.now) ≡ Some b.0) }
    ensures within { IfOk result (λ b. b.0 < length named.now) }
    ensures fault { IfErr result (λ e.
        name_fault version design.now (λ b. slice_index_or named.now b false)
        (shown line.now).number (is_fixed_line (shown line.now))
        (block_in design.now (shown line.now)) ≡ Some e) }
{
    if !is_fixed_line(line) {
        return Err(PlaceFault::BadLine(line.number));
    }
    let Some(block) = block_in(design, line) else {
        return Err(PlaceFault::UnknownBlock(line.number));
    };
    if named[block.0 as usize] {
        return Err(PlaceFault::Repeated(line.number));
    }
    if !may_be_fixed(version, design, block) {
        return Err(PlaceFault::NotAPad(line.number));
    }
    Ok(block)
}

/// Takes the names of `count` fixed blocks. Returns, for each block, whether it is fixed. If memory runs out, no line that was taken has a
/// fault.
fn take_names(
    alloc: Global,
    left: &mut Lines,
    version: Version,
    design: &Design,
    count: u64,
) -> Result<Vec<bool>, PointFault>
    ensures read { IfOk result (λ named.
        AreNamed version design.now count left.old named.items left.new) }
    ensures fault { IfErr result (λ e.
        (e ≡ NoMemory) ⊎ ListFault e (fixed_fault version design.now) count (λ ls. ⊥) left.old) }
    ensures memory { IfErr result (λ e.
        e ≡ NoMemory → TookNoFault (fixed_fault version design.now) left.old left.new) }
{
    let mut named = vec![in alloc; false; design.blocks()]?;
    'names: for _ in 0..count {
        let line = take_line(left)?;
        let block = named_block(&line, version, design, &named)?;
        named[block.0 as usize] = true;
    }
    Ok(named)
}

/// The number of fixed blocks that a line gives.
fn fixed_field(line: &Line, design: &Design) -> Result<u64, PointFault>
    ensures read { IfOk result (λ n.
        Says (number_in (codes "fixed")) (λ n. n ≤ length design.now.kinds) (shown line.now) n) }
    ensures fault { IfErr result (λ e.
        IsFaultOfField e (number_in (codes "fixed")) (λ n. n ≤ length design.now.kinds) FixedField
        (shown line.now)) }
{
    let count = number_field(line, b"fixed")?;
    if count > design.blocks() as u64 {
        return Err(PointFault::OutOfRange(PointField::Fixed));
    }
    Ok(count)
}

/// Takes the fixed blocks. Returns, for each block, whether it is fixed.
fn read_names(
    alloc: Global,
    left: &mut Lines,
    version: Version,
    design: &Design,
) -> Result<Vec<bool>, PointFault>
    ensures read { IfOk result (λ named.
        NamesRead version design.now left.old named.items left.new) }
    ensures fault { IfErr result (λ e.
        (e ≡ NoMemory) ⊎ NamesFault e version design.now (λ ls. ⊥) left.old) }
{
    let count = fixed_field(&take_line(left)?, design)?;
    take_names(alloc, left, version, design, count)
}

/// Takes the sites of all blocks, one line for each. If memory runs out, no line that was taken has a fault.
fn take_sites(
    alloc: Global,
    left: &mut Lines,
    design: &Design,
    grid: &Grid,
) -> Result<Placement, PointFault>
    ensures read { IfOk result (λ p. AreSeated design.now grid.now left.old p left.new) }
    ensures fault { IfErr result (λ e.
        (e ≡ NoMemory) ⊎
        ListFault e (seat_fault design.now grid.now) (length design.now.kinds) (λ ls. ⊥) left.old) }
    ensures memory { IfErr result (λ e.
        e ≡ NoMemory → TookNoFault (seat_fault design.now grid.now) left.old left.new) }
{
    let mut placed = PlaceLines::new(alloc, design, grid)?;
    'places: for _ in 0..design.blocks() {
        let line = take_line(left)?;
        placed.take(&line)?;
    }
    Ok(placed.finish()?)
}

/// Checks that `places N` gives the number of blocks.
fn places_field(line: &Line, design: &Design) -> Result<(), PointFault>
    ensures read { OnOk result
        (Says (number_in (codes "places")) (λ m. m ≡ length design.now.kinds) (shown line.now)
        (length design.now.kinds)) }
    ensures fault { IfErr result (λ e.
        IsFaultOfField e (number_in (codes "places")) (λ m. m ≡ length design.now.kinds) Places
        (shown line.now)) }
{
    let count = number_field(line, b"places")?;
    if count != design.blocks() as u64 {
        return Err(PointFault::OutOfRange(PointField::Places));
    }
    Ok(())
}

/// The placement.
fn read_sites(
    alloc: Global,
    left: &mut Lines,
    design: &Design,
    grid: &Grid,
) -> Result<Placement, PointFault>
    ensures read { IfOk result (λ p. SeatsRead design.now grid.now left.old p left.new) }
    ensures fault { IfErr result (λ e.
        (e ≡ NoMemory) ⊎ SeatsFault e design.now grid.now (λ ls. ⊥) left.old) }
{
    places_field(&take_line(left)?, design)?;
    take_sites(alloc, left, design, grid)
}

/// Checks that a line is `end`.
fn end_field(line: &Line) -> Result<(), PointFault>
    ensures end { OnOk result (is_end (shown line.now) ≡ true) }
    ensures fault { IfErr result (λ e.
        (e ≡ BadField (shown line.now).number) × (is_end (shown line.now) ≡ false)) }
{
    if is_end(line) {
        Ok(())
    } else {
        Err(PointFault::BadField(line.number))
    }
}

/// Whether there is no line after the last one.
fn no_more(more: &Option<Line>) -> Result<(), PointFault>
    ensures end { OnOk result (more.now ≡ None) }
    ensures fault { IfErr result (λ e.
        (l : Line) × (more.now ≡ Some l) × (e ≡ BadField (shown l).number)) }
{
    match more {
        None => Ok(()),
        Some(line) => Err(PointFault::BadField(line.number)),
    }
}

/// Takes the last line, and checks that no line follows.
fn read_end(left: &mut Lines) -> Result<(), PointFault>
    ensures read { OnOk result (EndRead left.old) }
    ensures fault { IfErr result (λ e. (e ≡ NoMemory) ⊎ EndFault e left.old) }
{
    end_field(&take_line(left)?)?;
    let more = left.next()?;
    no_more(&more)
}

/// Fixes each named block at its site.
fn fix_named(alloc: Global, named: &[bool], placement: &Placement) -> Result<Fixed, AllocError>
    requires many { length named.now ≡ length placement.now.sites }
    requires few { length named.now < 2 ^ 32 }
    ensures { IfOk result (λ f.
        (b : ℕ) →
        fixed_at f b ≡
        (if slice_index_or named.now b false then Some (site_of placement.now.sites b)
        else None)) }
{
    let mut fixed = Fixed::none(alloc);
    for b in 0..named.len() {
        if named[b] {
            let block = BlockId(b as u32);
            fixed.fix(block, placement.site_of(block))?;
        }
    }
    Ok(fixed)
}

/// What a text stands for, or its first fault.
fn read_parts(
    alloc: Global,
    bytes: &[u8],
    io_rat: u16,
    design: &Design,
) -> Result<(u64, Grid, Point), PointFault>
    ensures found { IfOk result (λ r.
        StandsForPoint io_rat design.now (lines bytes.now) r.0 r.1 r.2) }
    ensures fault { IfErr result (λ e.
        (e ≡ NoMemory) ⊎ IsFirstFault io_rat design.now (lines bytes.now) e) }
{
    let mut left = Lines::new(alloc, bytes);
    let version = read_version(&mut left)?;
    let head = read_head(&mut left, version, io_rat, design)?;
    let (stage, total) = read_stage(&mut left, version, &head.grid, &head.schedule)?;
    let named = read_names(alloc, &mut left, version, design)?;
    let placement = read_sites(alloc, &mut left, design, &head.grid)?;
    read_end(&mut left)?;
    let fixed = fix_named(alloc, &named, &placement)?;
    let point = Point {
        schedule: head.schedule,
        stage,
        total,
        fixed,
        placement,
    };
    Ok((head.seed, head.grid, point))
}

/// Reads the seed, the array and the point of a run from its checkpoint text, given the number of pads at a position and the design of that
/// run. An error is the first fault of the text, or a lack of memory.
pub(crate) fn point_for(
    alloc: Global,
    bytes: &[u8],
    io_rat: u16,
    design: &Design,
) -> Result<(u64, Grid, Point), PointFault>
    ensures found { IfOk result (λ r.
        StandsForPoint io_rat design.now (lines bytes.now) r.0 r.1 r.2) }
    ensures only { (seed : ℕ) (g : GridShape) (p : PointOf) →
        StandsForPoint io_rat design.now (lines bytes.now) seed g p →
        MatchResult result (λ r. (r.0 ≡ seed) × (r.1 ≡ g) × IsSamePoint r.2 p) (λ e. e ≡ NoMemory) }
    ensures fault { IfErr result (IsPointFault io_rat design.now (lines bytes.now)) }
{
    let _blocks = design.blocks();
    read_parts(alloc, bytes, io_rat, design)
}

/// Reads the seed, the array and the point of a run from its checkpoint text, of the first or the second version, given the architecture
/// and the design of that run. The time grows with the length of the text.
///
/// An error is the first fault of the text, that of its first line that is faulty or missing, or a lack of memory.
pub fn read_point(
    alloc: Global,
    bytes: &[u8],
    arch: &Arch,
    design: &Design,
) -> Result<(u64, Grid, Point), PointFault>
    // What is read is what the text stands for.
    ensures found { IfOk result (λ r.
        StandsForPoint arch.now.io_rat design.now (lines bytes.now) r.0 r.1 r.2) }
    // What it stands for is read, unless memory runs out.
    ensures only { (seed : ℕ) (g : GridShape) (p : PointOf) →
        StandsForPoint arch.now.io_rat design.now (lines bytes.now) seed g p →
        MatchResult result (λ r. (r.0 ≡ seed) × (r.1 ≡ g) × IsSamePoint r.2 p) (λ e. e ≡ NoMemory) }
    // An error is the first fault, or a lack of memory.
    ensures fault { IfErr result (IsPointFault arch.now.io_rat design.now (lines bytes.now)) }
{
    point_for(alloc, bytes, arch.io_rat, design)
}

/// The law that the lines of a checkpoint text either stand for one point or have one first fault, and never both.
pub fn point_texts_mean_or_fault()
    ensures { (io_rat : ℕ) (d : Netlist) (ls : List TextLine) → IsLawfulDesign d →
        PointMeansOrFaults io_rat d ls }
{}
