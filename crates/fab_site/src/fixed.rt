//! Blocks that must stay where they are.

ghost use Rattle.std.specs.Prelude.{◌≡◌, ℕ, ◌+◌, ◌<◌, ◌≤◌, ◌^◌, ◌==◌, [], length, not, filter, if◌then◌else◌, None, Some, OnOk, OnErr, slice_get, slice_index};
ghost use Rattle.fab_site.specs.Placement.{fixed_at};
ghost use Rattle.fab_site.specs.Free.{free_below};

use fab_arch::Site;
use fab_net::BlockId;
use std::alloc::{AllocError, Global};
use std::marker::Model;

/// The blocks that must stay, with their sites.
pub struct Fixed {
    sites: Vec<Option<Site>>,
    /// The blocks below the end of `sites` that are not fixed, in ascending order. So a block is found by its rank.
    free: Vec<u32>,
}

impl Model for Fixed {
    ghost use Rattle.std.specs.Prelude.{◌≡◌, List, Option, length};
    ghost use Rattle.fab_arch.specs.declared.array.Site.{Site};
    ghost use Rattle.fab_site.specs.Free.{free_below};

    ghost Value = { List (Option Site) };

    ghost view = { λ f. f.sites.items };

    ghost invariant = { λ f. f.free.items ≡ free_below f.sites.items (length f.sites.items) };
}

impl Drop for Fixed {
    // A `drop` by hand is proved once; a derived `drop` is proved again wherever fixed blocks go out of scope.
    fn drop(self) {
        let Fixed { sites: _, free: _ } = self;
    }
}

impl Fixed {
    /// No block is fixed.
    pub fn none(alloc: Global) -> Fixed
        ensures { result ≡ [] }
    {
        Fixed {
            sites: Vec::new(alloc),
            free: Vec::new(alloc),
        }
    }

    /// Fixes a block at a site. The block must not be fixed yet. If memory runs out, the fixed blocks stay the same.
    pub fn fix(&mut self, block: BlockId, site: Site) -> Result<(), AllocError>
        requires { fixed_at self.old block.0 ≡ None }
        ensures fixed { OnOk result ((b : ℕ) →
            fixed_at self.new b ≡ (if b == block.0 then Some site else fixed_at self.old b)) }
        ensures same { OnErr result ((b : ℕ) → fixed_at self.new b ≡ fixed_at self.old b) }
    {
        lengthen(&mut self.sites, &mut self.free, block.0 as usize + 1)?;
        put(&mut self.sites, &mut self.free, block, site);
        Ok(())
    }

    /// The site where a block is fixed, or `None` if it is not fixed.
    pub fn site_of(&self, block: BlockId) -> Option<Site>
        ensures { result ≡ fixed_at self.now block.0 }
    {
        match self.sites.get(block.0 as usize) {
            Some(site) => *site,
            None => None,
        }
    }

    /// How many of the first `blocks` blocks are not fixed. Blocks from number `blocks` on must not be fixed.
    pub fn free_blocks(&self, blocks: u32) -> u32
        requires { (b : ℕ) (s : Site) → fixed_at self.now b ≡ Some s → b < blocks }
        ensures { result ≡ length (free_below self.now blocks) }
    {
        (u64::from(blocks) + self.free.len() as u64 - self.sites.len() as u64) as u32
    }

    /// The block with rank `rank`, from 0, among those of the first `blocks` blocks that are not fixed. Takes constant time.
    pub fn free_block(&self, blocks: u32, rank: u32) -> BlockId
        requires { rank < length (free_below self.now blocks) }
        ensures { slice_get (free_below self.now blocks) rank ≡ Some result.0 }
    {
        let kept = self.free.len();
        if (rank as usize) < kept {
            BlockId(self.free[rank as usize])
        } else {
            BlockId((self.sites.len() as u64 + (u64::from(rank) - kept as u64)) as u32)
        }
    }

    /// The sites by block number, with `None` for blocks that are not fixed.
    pub(crate) fn sites(&self) -> &[Option<Site>]
        ensures { result.now ≡ self.now }
    {
        &self.sites
    }
}

/// Adds one more block that is not fixed.
fn lengthen_by_one(sites: &mut Vec<Option<Site>>, free: &mut Vec<u32>) -> Result<(), AllocError>
    requires small { length sites.old.items < 2 ^ 32 }
    requires tied { free.old.items ≡ free_below sites.old.items (length sites.old.items) }
    ensures tied { free.new.items ≡ free_below sites.new.items (length sites.new.items) }
    ensures long { OnOk result (length sites.new.items ≡ length sites.old.items + 1) }
    ensures same { (b : ℕ) → fixed_at sites.new.items b ≡ fixed_at sites.old.items b }
{
    let number = sites.len() as u32;
    sites.push(None)?;
    if free.push(number).is_err() {
        sites.pop();
        return Err(AllocError);
    }
    Ok(())
}

/// Lengthens the list to at least `len` blocks; new ones are not fixed.
fn lengthen(
    sites: &mut Vec<Option<Site>>,
    free: &mut Vec<u32>,
    len: usize,
) -> Result<(), AllocError>
    requires small { len ≤ 2 ^ 32 }
    requires tied { free.old.items ≡ free_below sites.old.items (length sites.old.items) }
    ensures tied { free.new.items ≡ free_below sites.new.items (length sites.new.items) }
    ensures long { OnOk result (len ≤ length sites.new.items) }
    ensures same { (b : ℕ) → fixed_at sites.new.items b ≡ fixed_at sites.old.items b }
{
    while sites.len() < len {
        lengthen_by_one(sites, free)?;
    }
    Ok(())
}

/// Removes a number from an ascending list.
fn take_out(numbers: &mut Vec<u32>, number: u32)
    requires { (i j : ℕ) → i < j → j < length numbers.old.items →
        slice_index numbers.old.items i < slice_index numbers.old.items j }
    ensures { numbers.new.items ≡ filter (λ n. not (n == number)) numbers.old.items }
{
    if let Ok(place) = numbers.binary_search(&number) {
        numbers.remove(place);
    }
}

/// Gives a block its site.
fn put(sites: &mut Vec<Option<Site>>, free: &mut Vec<u32>, block: BlockId, site: Site)
    requires within { block.0 < length sites.old.items }
    requires tied { free.old.items ≡ free_below sites.old.items (length sites.old.items) }
    ensures tied { free.new.items ≡ free_below sites.new.items (length sites.new.items) }
    ensures fixed { (b : ℕ) →
        fixed_at sites.new.items b ≡
        (if b == block.0 then Some site else fixed_at sites.old.items b) }
{
    take_out(free, block.0);
    sites[block.0 as usize] = Some(site);
}
