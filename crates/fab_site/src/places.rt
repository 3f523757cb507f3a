//! A placement: the site of each block, and the block on each site, in two flat arrays.

ghost use Rattle.std.specs.Prelude.{◌≡◌, ◌↔◌, ℕ, ◌+◌, ◌^◌, ◌<◌, ◌≤◌, [], length, is_some, slice_get, slice_set, Some, IsTrue, IfOk};
ghost use Rattle.fab_arch.specs.Grid.{kind_at};
ghost use Rattle.fab_net.specs.declared.netlist_types.BlockId.{BlockId};
ghost use Rattle.fab_site.specs.Index.{IsIndexed, index_of, site_count, number_for};
ghost use Rattle.fab_site.specs.Placement.{AreApart, IsLegal, IsSwapOf, swapped, site_of as site_of_block, at as block_at};

use crate::index::{held, index_of, number_for, site_count};
use crate::placement_types::Swap;
use fab_arch::{Grid, Site};
use fab_net::{BlockId, Design};
use std::alloc::{AllocError, Global};
use std::marker::Model;

/// The site of each block, on one array.
pub struct Placement {
    grid: Grid,
    sites: Vec<Site>,
    holders: Vec<u32>,
}

impl Model for Placement {
    ghost use Rattle.fab_site.specs.Placement.{PlacementOf};
    ghost use Rattle.fab_site.specs.Index.{IsIndexed};

    ghost Value = { PlacementOf };

    ghost view = { λ p. record { grid = p.grid; sites = p.sites.items } };

    ghost invariant = { λ p. IsIndexed p.grid p.sites.items p.holders.items };
}

impl Drop for Placement {
    // A `drop` by hand is proved once; a derived `drop` is proved again wherever a placement goes out of scope.
    fn drop(self) {
        let Placement {
            grid: _,
            sites: _,
            holders: _,
        } = self;
    }
}

impl Placement {
    /// Makes a placement from the site of each block, by block number. Each site must be of its block's kind, and no site may occur twice.
    pub fn of_sites(
        alloc: Global,
        design: &Design,
        grid: &Grid,
        sites: &[Site],
    ) -> Result<Placement, AllocError>
        requires { IsLegal design.now grid.now [] sites.now }
        ensures grid { IfOk result (λ p. p.grid ≡ grid.now) }
        ensures sites { IfOk result (λ p. p.sites ≡ sites.now) }
    {
        let _blocks = design.blocks();
        let own = Vec::from_slice(alloc, sites)?;
        let holders = holders_of(alloc, grid, sites)?;
        Ok(Placement {
            grid: *grid,
            sites: own,
            holders,
        })
    }

    /// Puts this placement on the array `grid`. There too, each block's site must be of the block's kind. If `grid` is its array already,
    /// returns it as it is; else makes the table of `grid`.
    pub fn on_array(self, design: &Design, grid: &Grid) -> Result<Placement, AllocError>
        requires { IsLegal design.now grid.now [] self.sites }
        ensures grid { IfOk result (λ p. p.grid ≡ grid.now) }
        ensures sites { IfOk result (λ p. p.sites ≡ self.sites) }
    {
        let _blocks = design.blocks();
        if self.grid == *grid {
            return Ok(self);
        }
        let Placement {
            grid: _,
            sites,
            holders: _,
        } = self;
        let alloc = *sites.allocator();
        let holders = holders_of(alloc, grid, &sites)?;
        Ok(Placement {
            grid: *grid,
            sites,
            holders,
        })
    }

    /// Makes a placement from the site of each block, by block number, and the table of the block on each site.
    pub(crate) fn of_table(grid: Grid, sites: Vec<Site>, holders: Vec<u32>) -> Self
        requires { IsIndexed grid sites.items holders.items }
        ensures { result ≡ record { grid = grid; sites = sites.items } }
    {
        Placement {
            grid,
            sites,
            holders,
        }
    }

    /// The site of a block.
    pub fn site_of(&self, block: BlockId) -> Site
        requires { block.0 < length self.now.sites }
        ensures { result ≡ site_of_block self.now.sites block.0 }
    {
        self.sites[block.0 as usize]
    }

    /// The block on a site, or `None` if the site is empty or the array does not have it.
    pub fn at(&self, site: Site) -> Option<BlockId>
        ensures first { result ≡ block_at self.now.sites site }
        ensures stands { (b : BlockId) → (result ≡ Some b) ↔
            (slice_get self.now.sites b.0 ≡ Some site) }
    {
        held(&self.holders, index_of(&self.grid, site))
    }

    /// The number of blocks. No two of them are on one site.
    pub fn blocks(&self) -> usize
        ensures count { result ≡ length self.now.sites }
        ensures apart { AreApart self.now.sites }
    {
        self.sites.len()
    }

    /// The sites of the blocks, by number.
    pub(crate) fn sites(&self) -> &[Site]
        ensures { result.now ≡ self.now.sites }
    {
        &self.sites
    }

    /// Applies a swap: its block goes to `to`, and the block there, if any, goes to `from`. The swap must fit this placement: `block` is on
    /// `from`, `other` is the block on `to`, if any, and `from` and `to` are two sites of one kind.
    pub fn apply(&mut self, swap: &Swap)
        requires { IsSwapOf self.old.grid self.old.sites swap.now }
        ensures { self.new ≡ record self.old { sites = swapped self.old.sites swap.now } }
    {
        set_holder(&self.grid, &mut self.holders, swap.to, Some(swap.block));
        set_holder(&self.grid, &mut self.holders, swap.from, swap.other);
        change_places(&mut self.sites, swap);
    }

    /// A copy of the placement.
    pub fn copy(&self) -> Result<Placement, AllocError>
        ensures { IfOk result (λ p. p ≡ self.now) }
    {
        Ok(Placement {
            grid: self.grid,
            sites: self.sites.clone()?,
            holders: self.holders.clone()?,
        })
    }

    /// Becomes a copy of `other`, which must have the same array and the same number of blocks. Allocates nothing.
    pub fn copy_from(&mut self, other: &Placement)
        requires array { self.old.grid ≡ other.now.grid }
        requires blocks { length self.old.sites ≡ length other.now.sites }
        ensures { self.new ≡ other.now }
    {
        self.sites.copy_from_slice(&other.sites);
        self.holders.copy_from_slice(&other.holders);
    }
}

/// The table of the block on each site.
fn holders_of(alloc: Global, grid: &Grid, sites: &[Site]) -> Result<Vec<u32>, AllocError>
    requires few { length sites.now ≤ 65535 }
    requires there { (b : ℕ) → b < length sites.now →
        IsTrue (is_some (kind_at grid.now (site_of_block sites.now b))) }
    requires apart { AreApart sites.now }
    ensures { IfOk result (λ v. IsIndexed grid.now sites.now v.items) }
{
    let mut holders = vec![in alloc; 0u32; site_count(grid)]?;
    for block in 0..sites.len() {
        if let Some(index) = index_of(grid, sites[block]) {
            holders[index] = block as u32 + 1;
        }
    }
    Ok(holders)
}

/// Writes the block on a site into the table.
fn set_holder(grid: &Grid, holders: &mut Vec<u32>, site: Site, holder: Option<BlockId>)
    requires size { length holders.old.items ≡ site_count grid.now }
    requires fits { (b : BlockId) → holder ≡ Some b → b.0 + 1 < 2 ^ 32 }
    ensures size { length holders.new.items ≡ length holders.old.items }
    ensures set { (i : ℕ) → index_of grid.now site ≡ Some i →
        holders.new.items ≡ slice_set holders.old.items i (number_for holder) }
{
    let number = number_for(holder);
    if let Some(index) = index_of(grid, site) {
        holders[index] = number;
    }
}

/// Gives the swap's blocks their new sites.
fn change_places(sites: &mut Vec<Site>, swap: &Swap)
    requires block { swap.now.block.0 < length sites.old.items }
    requires other { (b : BlockId) → swap.now.other ≡ Some b → b.0 < length sites.old.items }
    ensures { sites.new.items ≡ swapped sites.old.items swap.now }
{
    sites[swap.block.0 as usize] = swap.to;
    if let Some(other) = swap.other {
        sites[other.0 as usize] = swap.from;
    }
}
