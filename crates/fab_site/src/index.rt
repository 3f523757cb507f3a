//! The place of each site of an array in one flat table.

ghost use Rattle.std.specs.Prelude.{◌≡◌, ℕ, ◌+◌, ◌-◌, ◌*◌, ◌^◌, ◌<◌, ◌≤◌, Some};
ghost use Rattle.fab_arch.specs.Grid.{shape, is_logic_site};
ghost use Rattle.fab_site.specs.Index.{place_of, pad_index, index_of, site_count, held, number_for};
ghost use Rattle.fab_net.specs.declared.netlist_types.BlockId.{BlockId};

use fab_arch::{Grid, Site};
use fab_net::BlockId;

/// The number of the position at (x, y) in perimeter order.
fn place_of(nx: u16, ny: u16, x: u16, y: u16) -> Option<usize>
    requires { (nx ≤ 1000) × (ny ≤ 1000) }
    ensures { result ≡ place_of nx ny x y }
{
    let columns = usize::from(nx);
    let rows = usize::from(ny);
    if 1 <= y && y <= ny {
        if x == 0 {
            Some(usize::from(y - 1))
        } else if x == nx + 1 {
            Some(rows + columns + usize::from(ny - y))
        } else {
            None
        }
    } else if 1 <= x && x <= nx {
        if y == ny + 1 {
            Some(rows + usize::from(x - 1))
        } else if y == 0 {
            Some(rows + columns + rows + usize::from(nx - x))
        } else {
            None
        }
    } else {
        None
    }
}

fn is_logic_site(nx: u16, ny: u16, site: Site) -> bool
    ensures { (io_rat : ℕ) → result ≡ is_logic_site (shape nx ny io_rat) site }
{
    1 <= site.x && site.x <= nx && (1 <= site.y && site.y <= ny) && site.sub == 0
}

fn logic_index(nx: u16, site: Site) -> usize
    requires { (1 ≤ site.x) × (1 ≤ site.y) }
    ensures { result ≡ (site.y - 1) * nx + (site.x - 1) }
{
    usize::from(site.y - 1) * usize::from(nx) + usize::from(site.x - 1)
}

fn pad_index(nx: u16, ny: u16, io_rat: u16, site: Site) -> Option<usize>
    requires { (nx ≤ 1000) × (ny ≤ 1000) }
    ensures { result ≡ pad_index (shape nx ny io_rat) site.sub (place_of nx ny site.x site.y) }
{
    let place = place_of(nx, ny, site.x, site.y)?;
    if site.sub < io_rat {
        let logic_sites = usize::from(nx) * usize::from(ny);
        Some(logic_sites + (place * usize::from(io_rat) + usize::from(site.sub)))
    } else {
        None
    }
}

/// The place of a site in the table, or `None` if the array has no such site.
#[tactic(auto, unfolding(crate::specs::Index::index_of))]
pub fn index_of(grid: &Grid, site: Site) -> Option<usize>
    ensures { result ≡ index_of grid.now site }
{
    let nx = grid.nx();
    let ny = grid.ny();
    if is_logic_site(nx, ny, site) {
        Some(logic_index(nx, site))
    } else {
        pad_index(nx, ny, grid.io_rat(), site)
    }
}

/// The number of sites of the array.
pub fn site_count(grid: &Grid) -> usize
    ensures { result ≡ site_count grid.now }
{
    let columns = usize::from(grid.nx());
    let rows = usize::from(grid.ny());
    columns * rows + (rows + columns + rows + columns) * usize::from(grid.io_rat())
}

/// The block at a place of the table. An entry of 0 means none, and n means block n - 1.
pub(crate) fn held(holders: &[u32], index: Option<usize>) -> Option<BlockId>
    ensures { result ≡ held holders.now index }
{
    match holders.get(index?) {
        Some(0) => None,
        Some(holder) => Some(BlockId(*holder - 1)),
        None => None,
    }
}

/// The entry of the table for a site with the block `holder`, or for an empty site.
pub(crate) fn number_for(holder: Option<BlockId>) -> u32
    requires { (b : BlockId) → holder ≡ Some b → b.0 + 1 < 2 ^ 32 }
    ensures { result ≡ number_for holder }
{
    match holder {
        Some(block) => block.0 + 1,
        None => 0,
    }
}
