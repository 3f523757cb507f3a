//! An unfinished placement: blocks get their sites one by one, in any order.

ghost use Rattle.std.specs.Prelude.{◌≡◌, ◌↔◌, ℕ, ◌+◌, ◌^◌, ◌<◌, ◌≤◌, length, map, replicate, is_some, position, slice_get, slice_set, None, Some, IsTrue, IfOk};
ghost use Rattle.fab_arch.specs.Grid.{kind_at};
ghost use Rattle.fab_net.specs.declared.netlist_types.BlockId.{BlockId};
ghost use Rattle.fab_site.specs.Draft.{holder_of, is_missing};
ghost use Rattle.fab_site.specs.Index.{index_of, site_count};

use crate::index::{held, index_of, site_count};
use crate::places::Placement;
use fab_arch::{Grid, Site};
use fab_net::BlockId;
use std::alloc::{AllocError, Global};
use std::marker::Model;

/// The site of each block, if it has one yet. No two blocks have the same site.
pub struct Draft {
    alloc: Global,
    grid: Grid,
    sites: Vec<Option<Site>>,
    holders: Vec<u32>,
}

impl Model for Draft {
    ghost use Rattle.fab_site.specs.Draft.{DraftOf, IsTabled};

    ghost Value = { DraftOf };

    ghost view = { λ p. record { grid = p.grid; sites = p.sites.items } };

    ghost invariant = { λ p. IsTabled p.grid p.sites.items p.holders.items };
}

impl Drop for Draft {
    // A `drop` by hand is proved once; a derived `drop` is proved again wherever a draft goes out of scope.
    fn drop(self) {
        let Draft {
            alloc: _,
            grid: _,
            sites: _,
            holders: _,
        } = self;
    }
}

impl Draft {
    /// A draft of `blocks` blocks, all without a site.
    pub fn new(alloc: Global, blocks: usize, grid: &Grid) -> Result<Draft, AllocError>
        requires { blocks ≤ 65535 }
        ensures { IfOk result (λ d. d ≡ record { grid = grid.now; sites = replicate blocks None }) }
    {
        let sites = no_sites(alloc, blocks)?;
        let holders = vec![in alloc; 0u32; site_count(grid)]?;
        Ok(Draft {
            alloc,
            grid: *grid,
            sites,
            holders,
        })
    }

    /// The site of a block, if it has one yet.
    pub fn site_of(&self, block: BlockId) -> Option<Site>
        requires { block.0 < length self.now.sites }
        ensures { slice_get self.now.sites block.0 ≡ Some result }
    {
        self.sites[block.0 as usize]
    }

    /// The block that has this site, if any.
    pub fn at(&self, site: Site) -> Option<BlockId>
        ensures first { result ≡ holder_of self.now.sites site }
        ensures stands { (b : BlockId) → (result ≡ Some b) ↔
            (slice_get self.now.sites b.0 ≡ Some (Some site)) }
    {
        held(&self.holders, index_of(&self.grid, site))
    }

    /// Gives a block its site. The block must have none yet, and the site must be one of the array's that no block has.
    pub fn put(&mut self, block: BlockId, site: Site)
        requires missing { slice_get self.old.sites block.0 ≡ Some None }
        requires there { IsTrue (is_some (kind_at self.old.grid site)) }
        requires free { holder_of self.old.sites site ≡ None }
        ensures { self.new ≡
            record self.old { sites = slice_set self.old.sites block.0 (Some site) } }
    {
        enter(&self.grid, &mut self.holders, block, site);
        self.sites[block.0 as usize] = Some(site);
    }

    /// The number of the first block without a site.
    pub fn first_missing(&self) -> Option<usize>
        ensures { result ≡ position is_missing self.now.sites }
    {
        self.sites.iter().position(|site| site.is_none())
    }

    /// Makes the placement. Each block must have its site.
    pub fn finish(self) -> Result<Placement, AllocError>
        requires { position is_missing self.sites ≡ None }
        ensures grid { IfOk result (λ p. p.grid ≡ self.grid) }
        ensures sites { IfOk result (λ p. map Some p.sites ≡ self.sites) }
    {
        let Draft {
            alloc,
            grid,
            sites,
            holders,
        } = self;
        let own = all_sites(alloc, &sites)?;
        Ok(Placement::of_table(grid, own, holders))
    }
}

/// A list of `blocks` blocks without a site.
fn no_sites(alloc: Global, blocks: usize) -> Result<Vec<Option<Site>>, AllocError>
    ensures { IfOk result (λ v. v.items ≡ replicate blocks None) }
{
    let mut sites = Vec::with_capacity(alloc, blocks)?;
    for _block in 0..blocks {
        sites.push(None)?;
    }
    Ok(sites)
}

/// Writes a block into the table at the place of its site.
fn enter(grid: &Grid, holders: &mut Vec<u32>, block: BlockId, site: Site)
    requires size { length holders.old.items ≡ site_count grid.now }
    requires fits { block.0 + 1 < 2 ^ 32 }
    requires there { IsTrue (is_some (kind_at grid.now site)) }
    ensures { (i : ℕ) → index_of grid.now site ≡ Some i →
        holders.new.items ≡ slice_set holders.old.items i (block.0 + 1) }
{
    if let Some(index) = index_of(grid, site) {
        holders[index] = block.0 + 1;
    }
}

/// The sites of the blocks. Each block must have one.
fn all_sites(alloc: Global, sites: &[Option<Site>]) -> Result<Vec<Site>, AllocError>
    requires { position is_missing sites.now ≡ None }
    ensures { IfOk result (λ v. map Some v.items ≡ sites.now) }
{
    let mut own = Vec::new(alloc);
    for site in sites {
        if let Some(site) = *site {
            own.push(site)?;
        }
    }
    Ok(own)
}
