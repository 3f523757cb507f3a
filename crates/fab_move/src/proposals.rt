//! What a move proposes: its block and its target site, which the move's words draw.

ghost use Rattle.std.specs.Prelude.{◌≡◌, ℕ, ◌+◌, ◌/◌, ◌<◌, ◌≤◌, ◌^◌, length, min, max, Some, slice_get, slice_index, true};
ghost use Rattle.fab_arch.specs.declared.array.SiteKind.TheVariants.{Logic, Pad};
ghost use Rattle.fab_arch.specs.Grid.{is_logic_site, is_pad_site, kind_at};
ghost use Rattle.fab_net.specs.Netlist.{is_logic_at};
ghost use Rattle.fab_site.specs.Placement.{Fits, IsLegal, IsSwapOf, fixed_at};
ghost use Rattle.fab_site.specs.Words.{pick_of};
ghost use Rattle.fab_move.specs.declared.proposals.Proposal.TheVariants.{Move as proposes};
ghost use Rattle.fab_move.specs.Propose.{movable, near as near_one, logic_target as logic_target_of, pad_target as pad_target_of, target as target_of, propose_to as proposal_to, proposal};
ghost use Rattle.fab_move.specs.Chosen.{holder_is_fixed, number_of};

use crate::pad_runs::Window;
use crate::windows::bounds_near;
use fab_arch::{Grid, Site};
use fab_net::{BlockId, BlockKind, Design};
use fab_site::{Fixed, Placement, Swap, pick};

/// What a move proposes.
#[derive(Clone, Copy, Debug, PartialEq, Eq)]
pub enum Proposal {
    /// No block may move.
    Nothing,
    /// The target is the block's own site, or is held by a fixed block.
    Void(BlockId, Site),
    /// A swap.
    Move(Swap),
}

/// What the four `words` of a move propose: a block that may move, and a target site of its kind. In both coordinates the target is at most
/// `range` (in thousandths) from the block. The placement must be legal. Looks only at the chosen block and at the block on the target.
/// Allocates nothing.
#[inline(always)]
pub fn propose(
    design: &Design,
    grid: &Grid,
    fixed: &Fixed,
    placement: &Placement,
    range: u64,
    words: [u32; 4],
) -> Proposal
    requires legal { IsLegal design.now grid.now fixed.now placement.now.sites }
    ensures value { result ≡
        proposal design.now grid.now fixed.now placement.now.sites range words }
    ensures lawful { (s : Swap) → result ≡ proposes s → IsSwapOf grid.now placement.now.sites s }
{
    match chosen(design, fixed, words[0]) {
        None => Proposal::Nothing,
        Some(block) => {
            let from = placement.site_of(block);
            let to = target(design, grid, block, from, range, words);
            propose_to(fixed, placement, block, from, to)
        }
    }
}

/// The block that `word` picks among those that may move; `None` if no block may move. Allocates nothing.
pub fn chosen(design: &Design, fixed: &Fixed, word: u32) -> Option<BlockId>
    requires { (b : ℕ) (s : Site) → fixed_at fixed.now b ≡ Some s → b < length design.now.kinds }
    ensures { number_of result ≡
        slice_get (movable design.now fixed.now)
        (pick_of word (length (movable design.now fixed.now))) }
{
    let blocks = design.blocks() as u32;
    let free = fixed.free_blocks(blocks);
    if free == 0 {
        return None;
    }
    Some(fixed.free_block(blocks, pick(word, free)))
}

/// The coordinate that `word` picks among those from 1 to `n` that are at most `reach` from `here`.
fn near(here: u16, reach: u64, n: u16, word: u32) -> u16
    requires low { 1 ≤ here }
    requires high { here ≤ n }
    requires reach { reach < 2 ^ 63 }
    ensures value { result ≡ near_one here reach n word }
    ensures low { 1 ≤ result }
    ensures high { result ≤ n }
{
    let (low, high) = bounds_near(here, reach, n);
    (low as u32 + pick(word, (high - low + 1) as u32)) as u16
}

/// The target of a logic block.
fn logic_target(grid: &Grid, from: Site, reach: u64, words: [u32; 4]) -> Site
    requires from { is_logic_site grid.now from ≡ true }
    requires reach { reach < 2 ^ 63 }
    ensures value { result ≡ logic_target_of grid.now from reach words }
    ensures kind { kind_at grid.now result ≡ Some Logic }
{
    Site {
        x: near(from.x, reach, grid.nx(), words[1]),
        y: near(from.y, reach, grid.ny(), words[2]),
        sub: 0,
    }
}

/// The target of a pad.
fn pad_target(grid: &Grid, from: Site, reach: u64, words: [u32; 4]) -> Site
    requires from { is_pad_site grid.now from ≡ true }
    requires reach { reach < 2 ^ 63 }
    ensures value { result ≡ pad_target_of grid.now from reach words }
    ensures kind { kind_at grid.now result ≡ Some Pad }
{
    let _nx = grid.nx();
    let _ny = grid.ny();
    let window = Window::around(grid, from, reach);
    let (x, y) = window.at(pick(words[1], window.len()));
    Site {
        x,
        y,
        sub: pick(words[2], u32::from(grid.io_rat())) as u16,
    }
}

/// The target of a block that is at `from`. `range` is in thousandths.
#[tactic(auto, using(crate::proofs::Targets::target_logic, crate::proofs::Targets::target_pad, crate::proofs::Targets::fits_logic, crate::proofs::Targets::fits_pad))]
fn target(
    design: &Design,
    grid: &Grid,
    block: BlockId,
    from: Site,
    range: u64,
    words: [u32; 4],
) -> Site
    requires block { block.0 < length design.now.kinds }
    requires from { Fits design.now grid.now block.0 from }
    ensures value { result ≡ target_of design.now grid.now block.0 from range words }
    ensures fits { Fits design.now grid.now block.0 result }
{
    if is_logic_block(design, block) {
        logic_target(grid, from, range / 1000, words)
    } else {
        pad_target(grid, from, range / 1000, words)
    }
}

/// Whether a block is a logic block and not a pad.
#[tactic(auto, using(crate::proofs::Targets::kind_known))]
fn is_logic_block(design: &Design, block: BlockId) -> bool
    requires { block.0 < length design.now.kinds }
    ensures { result ≡ is_logic_at design.now block.0 }
{
    match design.kind(block) {
        BlockKind::Logic => true,
        BlockKind::InputPad | BlockKind::OutputPad => false,
    }
}

/// The proposal for a block and its target.
#[inline(always)]
fn propose_to(
    fixed: &Fixed,
    placement: &Placement,
    block: BlockId,
    from: Site,
    to: Site,
) -> Proposal
    ensures { result ≡ proposal_to fixed.now placement.now.sites block from to }
{
    if from == to {
        return Proposal::Void(block, to);
    }
    let other = placement.at(to);
    if is_fixed(fixed, other) {
        return Proposal::Void(block, to);
    }
    Proposal::Move(Swap {
        block,
        from,
        to,
        other,
    })
}

/// Whether there is a block and it is fixed.
fn is_fixed(fixed: &Fixed, block: Option<BlockId>) -> bool
    ensures { result ≡ holder_is_fixed fixed.now block }
{
    match block {
        None => false,
        Some(block) => fixed.site_of(block).is_some(),
    }
}
