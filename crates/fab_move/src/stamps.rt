//! When each block, site and net was last touched.

ghost use Rattle.std.specs.Prelude.{◌≡◌, ℕ, ◌<◌, ◌≤◌, ◌==◌, ◌∷◌, [], if◌then◌else◌, nat_lt, ◌&&◌, not, length, is_some, IfOk, IfSome, Some, slice_index, true};
ghost use Rattle.std.specs.List.{All, list_any};
ghost use Rattle.fab_net.specs.declared.netlist_types.NetId.{NetId};
ghost use Rattle.fab_cost.specs.Runs.{few_of, is_large};
ghost use Rattle.fab_cost.specs.Swapping.{IsMadeFor};
ghost use Rattle.fab_site.specs.Index.{index_of};
ghost use Rattle.fab_arch.specs.Grid.{GridShape};
ghost use Rattle.fab_move.specs.declared.marks.Mark.{Mark as IsMark};
ghost use Rattle.fab_move.specs.declared.proposals.Proposal.TheVariants.{Move as proposes};
ghost use Rattle.fab_move.specs.declared.marks.Mark.TheVariants.{Place as place_mark};
ghost use Rattle.fab_move.specs.Judge.{block_marks, footprint, has_mark, other_marks, touched};
ghost use Rattle.fab_move.specs.KeptNets.{AreKept};
ghost use Rattle.fab_move.specs.StampTables.{IsBlock, IsQuiet, IsTable, IsWithin, kept_stamp, near_of};

use crate::kept_nets::LargeNets;
use crate::proposals::Proposal;
use fab_arch::{Grid, Site};
use fab_cost::{EdgeBoxes, has_many_terminals, lift_one};
use fab_net::{BlockId, Design, NetId};
use fab_site::Swap;
use fab_site::index::{index_of, site_count};
use std::alloc::{AllocError, Global};

/// For each block, site and net: one more than the number of the last accepted move that touched it, or 0 if none did.
pub struct Stamps {
    blocks: Vec<u64>,
    places: Vec<u64>,
    nets: Vec<u64>,
    /// For each block: the greater of this number and `floor` is never below the stamps of the block and of its nets of up to 16 terminals.
    /// So if neither is above a base, the block and these nets were not touched since.
    near: Vec<u64>,
    floor: u64,
}

impl Drop for Stamps {
    // This is one call wherever a value goes out of scope. A derived `drop` would be proved again at each place.
    fn drop(self) {
        let Stamps {
            blocks: _,
            places: _,
            nets: _,
            near: _,
            floor: _,
        } = self;
    }
}

impl Stamps {
    /// The stamps before anything is touched.
    #[tactic(auto, using(crate::proofs::Near::near_at_first))]
    pub fn new(alloc: Global, design: &Design, grid: &Grid) -> Result<Stamps, AllocError>
        ensures table { IfOk result (λ s. IsTable design.now grid.now s) }
        ensures none { IfOk result (λ s. (m : IsMark) → kept_stamp grid.now s m ≡ 0) }
    {
        Ok(Stamps {
            blocks: zeros(alloc, design.blocks())?,
            places: zeros(alloc, site_count(grid))?,
            nets: zeros(alloc, design.nets())?,
            near: zeros(alloc, design.blocks())?,
            floor: 0,
        })
    }

    /// Stamps what an accepted swap touches. Beside a crew, `near` is the wire cost, and the `near` numbers of the blocks around the swap
    /// are raised. Without a crew, `near` is `None`, and the floor is raised.
    pub fn touch(
        &mut self,
        design: &Design,
        grid: &Grid,
        swap: &Swap,
        stamp: u64,
        near: Option<&EdgeBoxes>,
    )
        requires table { IsTable design.now grid.now self.old }
        requires within { IsWithin design.now grid.now swap.now }
        requires near { IfSome near (λ b. IsMadeFor b.now design.now) }
        ensures table { IsTable design.now grid.now self.new }
        ensures touched { (m : IsMark) →
            kept_stamp grid.now self.new m ≡
            (if has_mark m (touched design.now swap.now) then stamp
            else kept_stamp grid.now self.old m) }
    {
        self.touch_other(design, grid, swap.other, stamp, near);
        self.touch_block(design, grid, swap.block, stamp, near);
        self.touch_site(design, grid, swap.to, stamp);
        self.touch_site(design, grid, swap.from, stamp);
    }

    /// Stamps a site.
    fn touch_site(&mut self, design: &Design, grid: &Grid, site: Site, stamp: u64)
        requires table { IsTable design.now grid.now self.old }
        requires there { is_some (index_of grid.now site) ≡ true }
        ensures table { IsTable design.now grid.now self.new }
        ensures touched { (m : IsMark) →
            kept_stamp grid.now self.new m ≡
            (if has_mark m (place_mark site ∷ []) then stamp
            else kept_stamp grid.now self.old m) }
    {
        if let Some(place) = index_of(grid, site) {
            self.places[place] = stamp;
        }
    }

    /// Stamps the block that a swap displaces, if any, and its nets.
    fn touch_other(
        &mut self,
        design: &Design,
        grid: &Grid,
        other: Option<BlockId>,
        stamp: u64,
        near: Option<&EdgeBoxes>,
    )
        requires table { IsTable design.now grid.now self.old }
        requires block { IsBlock design.now other }
        requires near { IfSome near (λ b. IsMadeFor b.now design.now) }
        ensures table { IsTable design.now grid.now self.new }
        ensures touched { (m : IsMark) →
            kept_stamp grid.now self.new m ≡
            (if has_mark m (other_marks design.now other) then stamp
            else kept_stamp grid.now self.old m) }
    {
        if let Some(block) = other {
            self.touch_block(design, grid, block, stamp, near);
        }
    }

    /// Stamps a block and its nets.
    fn touch_block(
        &mut self,
        design: &Design,
        grid: &Grid,
        block: BlockId,
        stamp: u64,
        near: Option<&EdgeBoxes>,
    )
        requires table { IsTable design.now grid.now self.old }
        requires block { block.0 < length design.now.kinds }
        requires near { IfSome near (λ b. IsMadeFor b.now design.now) }
        ensures table { IsTable design.now grid.now self.new }
        ensures touched { (m : IsMark) →
            kept_stamp grid.now self.new m ≡
            (if has_mark m (block_marks design.now block) then stamp
            else kept_stamp grid.now self.old m) }
    {
        let nets = design.nets_of(block);
        self.blocks[block.0 as usize] = stamp;
        stamp_nets(&mut self.nets, nets, stamp);
        if let Some(cost) = near {
            lift_one(&mut self.near, block.0 as usize, stamp);
            cost.lift_near(design, &mut self.near, block, stamp);
        } else if self.floor < stamp {
            self.floor = stamp;
        }
    }

    /// Whether the footprint of `proposal` was touched by move `base` or a later one. `nets` may hold the proposed swap's nets with many
    /// terminals.
    #[inline(always)]
    pub fn is_touched(
        &self,
        design: &Design,
        grid: &Grid,
        base: u64,
        proposal: Proposal,
        nets: &LargeNets,
    ) -> bool
        requires table { IsTable design.now grid.now self.now }
        requires block { (s : Swap) → proposal ≡ proposes s → s.block.0 < length design.now.kinds }
        requires other { (s : Swap) (b : BlockId) → proposal ≡ proposes s → s.other ≡ Some b →
            b.0 < length design.now.kinds }
        requires nets { (s : Swap) → proposal ≡ proposes s → AreKept design.now s nets.now }
        ensures { result ≡ list_any (λ m.
            nat_lt base (kept_stamp grid.now self.now m)) (footprint design.now proposal) }
    {
        match proposal {
            Proposal::Nothing => false,
            Proposal::Void(block, target) => {
                base < self.of_site(grid, target) || base < stamp_at(&self.blocks, block.0 as usize)
            }
            Proposal::Move(swap) => {
                if nets.is_kept && self.is_quiet(grid, base, swap) {
                    is_net_touched(&self.nets, base, nets.list())
                } else {
                    self.is_swap_touched(design, grid, base, swap)
                }
            }
        }
    }

    /// Whether the footprint of a proposed swap was touched by move `base` or a later one.
    #[inline(always)]
    fn is_swap_touched(&self, design: &Design, grid: &Grid, base: u64, swap: Swap) -> bool
        requires block { swap.block.0 < length design.now.kinds }
        requires other { (b : BlockId) → swap.other ≡ Some b → b.0 < length design.now.kinds }
        ensures { result ≡ list_any (λ m.
            nat_lt base (kept_stamp grid.now self.now m)) (footprint design.now (proposes swap)) }
    {
        base < self.of_site(grid, swap.to)
            || (self.is_block_touched(design, base, swap.block)
                || self.is_other_touched(design, base, swap.other))
    }

    /// Whether the floor, the target's stamp and the blocks' `near` numbers show that the target of a proposed swap, its blocks, and their
    /// nets with few terminals were not touched by move `base` or a later one.
    #[inline(always)]
    fn is_quiet(&self, grid: &Grid, base: u64, swap: Swap) -> bool
        ensures quiet { result ≡ true → IsQuiet grid.now self.now base swap }
        ensures all { IsQuiet grid.now self.now base swap → result ≡ true }
    {
        self.floor <= base
            && self.of_site(grid, swap.to) <= base
            && near_at(&self.near, swap.block) <= base
            && near_other(&self.near, swap.other) <= base
    }

    /// Whether the target of a proposed swap, its blocks, or their nets with few terminals were touched by move `base` or a later one. Nets
    /// with many terminals do not count.
    pub fn is_swap_touched_in_few(
        &self,
        design: &Design,
        grid: &Grid,
        base: u64,
        swap: Swap,
    ) -> bool
        requires table { IsTable design.now grid.now self.now }
        requires block { swap.block.0 < length design.now.kinds }
        requires other { (b : BlockId) → swap.other ≡ Some b → b.0 < length design.now.kinds }
        ensures { result ≡ list_any (λ m.
            nat_lt base (kept_stamp grid.now self.now m))
            (footprint (few_of design.now) (proposes swap)) }
    {
        if self.is_quiet(grid, base, swap) {
            return false;
        }
        let place = self.of_site(grid, swap.to);
        base < place
            || (self.is_block_touched_in_few(design, base, swap.block)
                || self.is_other_touched_in_few(design, base, swap.other))
    }

    /// Whether a block or one of its nets with few terminals was touched by move `base` or a later one.
    fn is_block_touched_in_few(&self, design: &Design, base: u64, block: BlockId) -> bool
        requires block { block.0 < length design.now.kinds }
        ensures { (g : GridShape) →
            result ≡ list_any (λ m.
            nat_lt base (kept_stamp g self.now m)) (block_marks (few_of design.now) block) }
    {
        let own = stamp_at(&self.blocks, block.0 as usize);
        base < own || is_net_of_few_touched(&self.nets, design, base, design.nets_of(block))
    }

    /// The same of the block that a swap displaces, if any.
    fn is_other_touched_in_few(&self, design: &Design, base: u64, other: Option<BlockId>) -> bool
        requires other { (b : BlockId) → other ≡ Some b → b.0 < length design.now.kinds }
        ensures { (g : GridShape) →
            result ≡ list_any (λ m.
            nat_lt base (kept_stamp g self.now m)) (other_marks (few_of design.now) other) }
    {
        match other {
            None => false,
            Some(block) => self.is_block_touched_in_few(design, base, block),
        }
    }

    /// Whether a block or one of its nets was touched by move `base` or a later one.
    #[inline(always)]
    fn is_block_touched(&self, design: &Design, base: u64, block: BlockId) -> bool
        requires { block.0 < length design.now.kinds }
        ensures { (g : GridShape) →
            result ≡ list_any (λ m.
            nat_lt base (kept_stamp g self.now m)) (block_marks design.now block) }
    {
        base < stamp_at(&self.blocks, block.0 as usize)
            || is_net_touched(&self.nets, base, design.nets_of(block))
    }

    /// The same of the block that a swap displaces, if any.
    #[inline(always)]
    fn is_other_touched(&self, design: &Design, base: u64, other: Option<BlockId>) -> bool
        requires { (b : BlockId) → other ≡ Some b → b.0 < length design.now.kinds }
        ensures { (g : GridShape) →
            result ≡ list_any (λ m.
            nat_lt base (kept_stamp g self.now m)) (other_marks design.now other) }
    {
        match other {
            None => false,
            Some(block) => self.is_block_touched(design, base, block),
        }
    }

    /// The stamp of a site.
    fn of_site(&self, grid: &Grid, site: Site) -> u64
        ensures { result ≡ kept_stamp grid.now self.now (place_mark site) }
    {
        match index_of(grid, site) {
            Some(place) => stamp_at(&self.places, place),
            None => 0,
        }
    }
}

/// A list of `count` zeros. An error means that memory ran out.
fn zeros(alloc: Global, count: usize) -> Result<Vec<u64>, AllocError>
    ensures long { IfOk result (λ v. length v.items ≡ count) }
    ensures each { IfOk result (λ v. (k : ℕ) → slice_index v.items k ≡ 0) }
{
    vec![in alloc; 0u64; count]
}

/// The stamp at an index; 0 beyond the end.
fn stamp_at(stamps: &[u64], index: usize) -> u64
    ensures { result ≡ slice_index stamps.now index }
{
    match stamps.get(index) {
        Some(stamp) => *stamp,
        None => 0,
    }
}

/// Whether one of the nets was touched by move `base` or a later one.
fn is_net_touched(stamps: &[u64], base: u64, nets: &[NetId]) -> bool
    ensures { result ≡ list_any (λ (n : NetId). nat_lt base (slice_index stamps.now n.0)) nets.now }
{
    nets.iter()
        .any(|net| base < stamp_at(stamps, net.0 as usize))
}

/// Whether one of the nets with few terminals was touched by move `base` or a later one.
fn is_net_of_few_touched(stamps: &[u64], design: &Design, base: u64, nets: &[NetId]) -> bool
    requires { All (λ (n : NetId). n.0 < length design.now.terminals) nets.now }
    ensures { result ≡ list_any (λ (n : NetId).
        nat_lt base (slice_index stamps.now n.0) && not (is_large design.now n.0)) nets.now }
{
    'nets: for i in 0..nets.len() {
        let net = nets[i];
        if base < stamp_at(stamps, net.0 as usize) && !has_many_terminals(design, net) {
            return true;
        }
    }
    false
}

/// Stamps nets.
fn stamp_nets(stamps: &mut Vec<u64>, nets: &[NetId], stamp: u64)
    requires { All (λ (n : NetId). n.0 < length stamps.old.items) nets.now }
    ensures length { length stamps.new.items ≡ length stamps.old.items }
    ensures each { (k : ℕ) →
        slice_index stamps.new.items k ≡
        (if list_any (λ (n : NetId). k == n.0) nets.now then stamp
        else slice_index stamps.old.items k) }
{
    for net in nets {
        stamps[net.0 as usize] = stamp;
    }
}

/// The `near` number of a block; 0 beyond the end.
fn near_at(near: &[u64], block: BlockId) -> u64
    ensures { result ≡ slice_index near.now block.0 }
{
    stamp_at(near, block.0 as usize)
}

/// The same of the block that a swap displaces; 0 if it displaces none.
fn near_other(near: &[u64], other: Option<BlockId>) -> u64
    ensures { result ≡ near_of near.now other }
{
    match other {
        None => 0,
        Some(block) => stamp_at(near, block.0 as usize),
    }
}
