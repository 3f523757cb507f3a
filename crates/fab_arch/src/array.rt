//! The array: logic sites in rows and columns, and pads around them.

ghost use Rattle.std.specs.Prelude.{◌≡◌, ◌↔◌, ℕ, ◌+◌, ◌*◌, ◌<◌, ◌≤◌, ◌&&◌, ◌||◌, ◌==◌, nat_le, Ok, Err, IsTrue, IsOk, IfOk, IfErr, slice_get};
ghost use Rattle.std.specs.List.{list_any};
ghost use Rattle.fab_arch.specs.Grid.{AreLimits, HasLogicSites, HasPadSites, Holds, IsLeastSquare, NoSquareHolds, shape, perimeter, is_position, is_logic_site, is_pad_site, kind_at};
ghost use Rattle.fab_arch.specs.declared.fault.GridFault.TheVariants.{TooFewLogicSites, TooFewPadSites, SizeOutOfRange};

use crate::fault::GridFault;
use std::marker::Model;

/// A place for a block: column `x`, row `y`, and `sub`, the number of a pad at its position.
#[derive(Clone, Copy, Debug, PartialEq, Eq)]
pub struct Site {
    pub x: u16,
    pub y: u16,
    /// For a pad its number at its position, from 0; for a logic site 0.
    pub sub: u16,
}

/// The kind of a site.
#[derive(Clone, Copy, Debug, PartialEq, Eq)]
pub enum SiteKind {
    Logic,
    Pad,
}

/// An array of `nx` columns and `ny` rows of logic sites, with `io_rat` pads at each position around it.
///
/// Logic sites are (1, 1) to (nx, ny) with sub 0. Pad positions are at x = 0, x = nx + 1, y = 0 and
/// y = ny + 1; the four corners are empty.
#[derive(Clone, Copy, Debug, PartialEq, Eq)]
pub struct Grid {
    nx: u16,
    ny: u16,
    io_rat: u16,
}

impl Model for Grid {
    ghost use Rattle.fab_arch.specs.Grid.{GridShape, AreLimits, shape};

    ghost Value = { GridShape };

    ghost view = { λ g. shape g.nx g.ny g.io_rat };

    ghost inverse = { λ g. record { nx = g.nx; ny = g.ny; io_rat = g.io_rat } };

    ghost invariant = { λ g. AreLimits g.nx g.ny g.io_rat };
}

fn are_limits(nx: u16, ny: u16, io_rat: u16) -> bool
    ensures { IsTrue result ↔ AreLimits nx ny io_rat }
{
    let side = 1..=1000;
    side.contains(&nx) && side.contains(&ny) && (1..=64).contains(&io_rat)
}

impl Grid {
    /// An array of `nx` by `ny` logic sites, 1 to 1,000 each, with `io_rat` pads, 1 to 64, at each position.
    pub fn new(nx: u16, ny: u16, io_rat: u16) -> Result<Grid, GridFault>
        ensures grid { IfOk result (λ g. g ≡ shape nx ny io_rat) }
        ensures limits { IsOk result ↔ AreLimits nx ny io_rat }
        ensures fault { IfErr result (λ e. e ≡ SizeOutOfRange) }
    {
        if are_limits(nx, ny, io_rat) {
            Ok(Grid { nx, ny, io_rat })
        } else {
            Err(GridFault::SizeOutOfRange)
        }
    }

    /// The smallest square array with a site for each of `logic` logic blocks and `pads` pads. Returns `SizeOutOfRange` if its side would
    /// be above 1,000, or if `io_rat` is outside 1 to 64.
    pub fn fit(logic: usize, pads: usize, io_rat: u16) -> Result<Grid, GridFault>
        ensures least { IfOk result (λ g. IsLeastSquare g logic pads io_rat) }
        ensures fault { IfErr result (λ e.
            (e ≡ SizeOutOfRange) ×
            ((1 ≤ io_rat) × (io_rat ≤ 64) → NoSquareHolds 1001 logic pads io_rat)) }
    {
        for side in 1..1001u16 {
            let grid = Grid::new(side, side, io_rat)?;
            if grid.holds(logic, pads).is_ok() {
                return Ok(grid);
            }
        }
        Err(GridFault::SizeOutOfRange)
    }

    /// Checks that there is a site for each of `logic` logic blocks and `pads` pads. Logic blocks are checked first.
    pub fn holds(&self, logic: usize, pads: usize) -> Result<(), GridFault>
        ensures holds { IsOk result ↔ Holds self.now logic pads }
        ensures logic { (result ≡ Err TooFewLogicSites) ↔ (¬ HasLogicSites self.now logic) }
        ensures pads { (result ≡ Err TooFewPadSites) ↔
            (HasLogicSites self.now logic × (¬ HasPadSites self.now pads)) }
    {
        let nx = usize::from(self.nx);
        let ny = usize::from(self.ny);
        if logic > nx * ny {
            Err(GridFault::TooFewLogicSites)
        } else if pads > 2 * (nx + ny) * usize::from(self.io_rat) {
            Err(GridFault::TooFewPadSites)
        } else {
            Ok(())
        }
    }

    /// The number of columns of logic sites, 1 to 1,000.
    pub fn nx(&self) -> u16
        ensures value { result ≡ self.now.nx }
        ensures limits { (1 ≤ result) × (result ≤ 1000) }
        ensures lawful { AreLimits self.now.nx self.now.ny self.now.io_rat }
    {
        self.nx
    }

    /// The number of rows of logic sites, 1 to 1,000.
    pub fn ny(&self) -> u16
        ensures value { result ≡ self.now.ny }
        ensures limits { (1 ≤ result) × (result ≤ 1000) }
    {
        self.ny
    }

    /// How many pads each position has, 1 to 64.
    pub fn io_rat(&self) -> u16
        ensures value { result ≡ self.now.io_rat }
        ensures limits { (1 ≤ result) × (result ≤ 64) }
    {
        self.io_rat
    }

    /// Pad position `i` in perimeter order. Positions are numbered from 0; returns `None` from 2·(nx + ny) on.
    pub fn pad_at(&self, i: usize) -> Option<(u16, u16)>
        ensures { result ≡ slice_get (perimeter self.now) i }
    {
        position_at(self.nx, self.ny, i)
    }

    /// The kind of a site, or `None` if the array has no such site.
    pub fn has_site(&self, site: Site) -> Option<SiteKind>
        ensures { result ≡ kind_at self.now site }
    {
        if self.is_logic_site(site) {
            Some(SiteKind::Logic)
        } else if self.is_pad_site(site) {
            Some(SiteKind::Pad)
        } else {
            None
        }
    }

    fn is_logic_site(&self, site: Site) -> bool
        ensures { result ≡ is_logic_site self.now site }
    {
        is_within(site.x, self.nx) && is_within(site.y, self.ny) && site.sub == 0
    }

    fn is_pad_site(&self, site: Site) -> bool
        ensures { result ≡ is_pad_site self.now site }
    {
        is_perimeter(self.nx, self.ny, site) && site.sub < self.io_rat
    }
}

/// Position `i` in perimeter order around an array of `nx` by `ny` logic sites.
fn position_at(nx: u16, ny: u16, i: usize) -> Option<(u16, u16)>
    requires { (nx ≤ 1000) × (ny ≤ 1000) }
    ensures { (io_rat : ℕ) → result ≡ slice_get (perimeter (shape nx ny io_rat)) i }
{
    let columns = usize::from(nx);
    let rows = usize::from(ny);
    if i < rows {
        Some((0, i as u16 + 1))
    } else if i < rows + columns {
        Some(((i - rows) as u16 + 1, ny + 1))
    } else if i < rows + columns + rows {
        Some((nx + 1, ny - (i - rows - columns) as u16))
    } else if i < rows + columns + rows + columns {
        Some((nx - (i - rows - columns - rows) as u16, 0))
    } else {
        None
    }
}

/// Whether a coordinate is from 1 to `side`.
fn is_within(at: u16, side: u16) -> bool
    ensures { result ≡ (nat_le 1 at && nat_le at side) }
{
    1 <= at && at <= side
}

/// Whether one coordinate is from 1 to `side` and the other is just outside the array.
fn is_beside(along: u16, side: u16, across: u16, depth: u16) -> bool
    requires { depth ≤ 1000 }
    ensures { result ≡
        ((nat_le 1 along && nat_le along side) && (across == 0 || across == depth + 1)) }
{
    is_within(along, side) && (across == 0 || across == depth + 1)
}

/// Whether a site's position is one of those around an array.
fn is_perimeter(nx: u16, ny: u16, site: Site) -> bool
    requires { (nx ≤ 1000) × (ny ≤ 1000) }
    ensures { (io_rat : ℕ) → result ≡ list_any (is_position site) (perimeter (shape nx ny io_rat)) }
{
    is_beside(site.y, ny, site.x, nx) || is_beside(site.x, nx, site.y, ny)
}
