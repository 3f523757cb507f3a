ghost use Rattle.std.specs.Prelude.{◌≡◌, ◌<◌, [], length, slice_get, Some, IfOk, IfSome};

use fab_arch::{Grid, Site, read_arch};
use fab_net::{BlockId, Design, read_net};
use fab_site::{Draft, Fixed, ListWords, Pins, Placement, Swap, Words, is_legal, pick, start};
use std::alloc::{AllocError, Global};
use std::test::*;

fn site(x: u16, y: u16, sub: u16) -> Site {
    Site { x, y, sub }
}

// Gives a block a site, if both are free and the array has the site.
fn give(draft: &mut Draft, grid: &Grid, block: BlockId, to: Site) -> bool
    requires grid { draft.old.grid ≡ grid.now }
    requires block { block.0 < length draft.old.sites }
    ensures grid { draft.new.grid ≡ draft.old.grid }
    ensures len { length draft.new.sites ≡ length draft.old.sites }
{
    if grid.has_site(to).is_some() && draft.at(to).is_none() && draft.site_of(block).is_none() {
        draft.put(block, to);
        true
    } else {
        false
    }
}

// The placement, if each block has its site.
fn finished(draft: Draft) -> Result<Option<Placement>, AllocError>
    ensures { IfOk result (λ o. IfSome o (λ p. p.grid ≡ draft.grid)) }
{
    match draft.first_missing() {
        Some(_) => Ok(None),
        None => Ok(Some(draft.finish()?)),
    }
}

// Blocks 0 and 1 on these sites, if the array has both and they differ.
fn two_blocks(alloc: Global, grid: &Grid, first: Site, second: Site) -> Result<Placement, Fail>
    ensures { IfOk result (λ p. p.grid ≡ grid.now) }
{
    let mut draft = Draft::new(alloc, 2, grid)?;
    if give(&mut draft, grid, BlockId(0), first) && give(&mut draft, grid, BlockId(1), second) {
        if let Some(placement) = finished(draft)? {
            return Ok(placement);
        }
    }
    Err(Fail::from("no placement"))
}

// Swaps a block to another site of the same kind.
fn move_to(placement: &mut Placement, grid: &Grid, block: BlockId, to: Site) -> bool
    requires { placement.old.grid ≡ grid.now }
    ensures { placement.new.grid ≡ placement.old.grid }
{
    let Some(from) = site_of(placement, block) else {
        return false;
    };
    let Some(kind) = grid.has_site(from) else {
        return false;
    };
    if from == to || grid.has_site(to) != Some(kind) {
        return false;
    }
    let other = placement.at(to);
    placement.apply(&Swap {
        block,
        from,
        to,
        other,
    });
    true
}

// The site of a block, if there is one with this number.
fn site_of(placement: &Placement, block: BlockId) -> Option<Site>
    ensures { IfSome result (λ s. slice_get placement.now.sites block.0 ≡ Some s) }
{
    if (block.0 as usize) < placement.blocks() {
        Some(placement.site_of(block))
    } else {
        None
    }
}

// An input pad a, block 0, and a logic block b, block 1.
fn pad_and_logic(alloc: Global) -> Result<Design, Fail> {
    let arch = read_arch(alloc, b"io_rat 2\ninpin class: 0 left\n")?;
    Ok(read_net(alloc, b".input a\npinlist: n\n.clb b\npinlist: n\n", &arch)?)
}

#[test]
fn a_draft_becomes_a_placement(rt: HostRuntime) -> Result<(), Fail> {
    let grid = Grid::new(2, 2, 2)?;
    let mut draft = Draft::new(rt.alloc(), 2, &grid)?;
    assert_eq!(rt; draft.first_missing(), Some(0));
    assert_eq!(rt; draft.at(site(0, 1, 1)), None);
    assert_eq!(rt; draft.site_of(BlockId(1)), None);
    assert!(rt; give(&mut draft, &grid, BlockId(1), site(0, 1, 1)));
    assert!(rt; !give(&mut draft, &grid, BlockId(0), site(0, 1, 1)));
    assert_eq!(rt; draft.at(site(0, 1, 1)), Some(BlockId(1)));
    assert_eq!(rt; draft.at(site(0, 1, 0)), None);
    assert_eq!(rt; draft.at(site(0, 0, 0)), None);
    assert_eq!(rt; draft.first_missing(), Some(0));
    assert!(rt; give(&mut draft, &grid, BlockId(0), site(2, 2, 0)));
    assert_eq!(rt; draft.first_missing(), None);
    let Some(placement) = finished(draft)? else {
        return Err(Fail::from("a block without a site"));
    };
    assert_eq!(rt; placement.blocks(), 2);
    assert_eq!(rt; placement.at(site(2, 2, 0)), Some(BlockId(0)));
    assert_eq!(rt; placement.at(site(1, 1, 0)), None);
    let copy = placement.copy()?;
    assert_eq!(rt; copy.at(site(0, 1, 1)), Some(BlockId(1)));
    Ok(())
}

#[test]
fn a_block_goes_to_an_empty_site(rt: HostRuntime) -> Result<(), Fail> {
    let grid = Grid::new(2, 2, 2)?;
    let mut placement = two_blocks(rt.alloc(), &grid, site(1, 1, 0), site(2, 2, 0))?;
    assert!(rt; move_to(&mut placement, &grid, BlockId(0), site(2, 1, 0)));
    assert_eq!(rt; site_of(&placement, BlockId(0)), Some(site(2, 1, 0)));
    assert_eq!(rt; site_of(&placement, BlockId(1)), Some(site(2, 2, 0)));
    assert_eq!(rt; placement.at(site(2, 1, 0)), Some(BlockId(0)));
    assert_eq!(rt; placement.at(site(1, 1, 0)), None);
    assert_eq!(rt; placement.at(site(2, 2, 0)), Some(BlockId(1)));
    Ok(())
}

#[test]
fn two_blocks_change_places(rt: HostRuntime) -> Result<(), Fail> {
    let grid = Grid::new(2, 2, 2)?;
    let mut placement = two_blocks(rt.alloc(), &grid, site(0, 1, 1), site(3, 2, 0))?;
    assert!(rt; !move_to(&mut placement, &grid, BlockId(0), site(1, 1, 0)));
    assert!(rt; move_to(&mut placement, &grid, BlockId(0), site(3, 2, 0)));
    assert_eq!(rt; site_of(&placement, BlockId(0)), Some(site(3, 2, 0)));
    assert_eq!(rt; site_of(&placement, BlockId(1)), Some(site(0, 1, 1)));
    assert_eq!(rt; placement.at(site(3, 2, 0)), Some(BlockId(0)));
    assert_eq!(rt; placement.at(site(0, 1, 1)), Some(BlockId(1)));
    assert!(rt; move_to(&mut placement, &grid, BlockId(1), site(3, 2, 0)));
    assert_eq!(rt; placement.at(site(0, 1, 1)), Some(BlockId(0)));
    assert_eq!(rt; placement.at(site(3, 2, 0)), Some(BlockId(1)));
    Ok(())
}

#[test]
fn blocks_are_fixed(rt: HostRuntime) -> Result<(), Fail> {
    let mut fixed = Fixed::none(rt.alloc());
    assert_eq!(rt; fixed.site_of(BlockId(0)), None);
    fixed.fix(BlockId(2), site(0, 1, 1))?;
    fixed.fix(BlockId(0), site(1, 2, 0))?;
    assert_eq!(rt; fixed.site_of(BlockId(0)), Some(site(1, 2, 0)));
    assert_eq!(rt; fixed.site_of(BlockId(1)), None);
    assert_eq!(rt; fixed.site_of(BlockId(2)), Some(site(0, 1, 1)));
    assert_eq!(rt; fixed.site_of(BlockId(3)), None);
    Ok(())
}

// Whether two blocks, placed on an array of 2 by 2, are legal on this array.
fn are_legal(
    alloc: Global,
    design: &Design,
    grid: &Grid,
    fixed: &Fixed,
    sites: [Site; 2],
) -> Result<bool, Fail> {
    let larger = Grid::new(2, 2, 2)?;
    let placement = two_blocks(alloc, &larger, sites[0], sites[1])?;
    Ok(is_legal(design, grid, fixed, &placement))
}

// The same for a pad and a logic block.
fn pad_and_logic_are_legal(
    alloc: Global,
    grid: &Grid,
    fixed: &Fixed,
    sites: [Site; 2],
) -> Result<bool, Fail> {
    let design = pad_and_logic(alloc)?;
    are_legal(alloc, &design, grid, fixed, sites)
}

// Whether the pad on (0, 2, 1) and the logic block on (2, 2, 0) are legal on this array.
fn legal_on(alloc: Global, grid: &Grid) -> Result<bool, Fail> {
    let sites = [site(0, 2, 1), site(2, 2, 0)];
    pad_and_logic_are_legal(alloc, grid, &Fixed::none(alloc), sites)
}

// Whether they are legal when one block is fixed at a site.
fn legal_with(alloc: Global, block: BlockId, at: Site) -> Result<bool, Fail> {
    let sites = [site(0, 2, 1), site(2, 2, 0)];
    let grid = Grid::new(2, 2, 2)?;
    let mut fixed = Fixed::none(alloc);
    fixed.fix(block, at)?;
    pad_and_logic_are_legal(alloc, &grid, &fixed, sites)
}

#[test]
fn legal_is_each_block_on_a_site_of_the_array(rt: HostRuntime) -> Result<(), Fail> {
    assert!(rt; legal_on(rt.alloc(), &Grid::new(2, 2, 2)?)?);
    assert!(rt; !legal_on(rt.alloc(), &Grid::new(1, 2, 2)?)?);
    assert!(rt; !legal_on(rt.alloc(), &Grid::new(2, 2, 1)?)?);
    Ok(())
}

#[test]
fn legal_is_each_fixed_block_at_its_site(rt: HostRuntime) -> Result<(), Fail> {
    assert!(rt; legal_with(rt.alloc(), BlockId(1), site(2, 2, 0))?);
    assert!(rt; !legal_with(rt.alloc(), BlockId(1), site(1, 2, 0))?);
    assert!(rt; !legal_with(rt.alloc(), BlockId(0), site(0, 2, 0))?);
    assert!(rt; !legal_with(rt.alloc(), BlockId(2), site(1, 1, 0))?);
    Ok(())
}

#[test]
fn a_logic_block_on_a_pad_site_is_not_legal(rt: HostRuntime) -> Result<(), Fail> {
    let alloc = rt.alloc();
    let grid = Grid::new(2, 2, 2)?;
    let crossed = [site(2, 2, 0), site(0, 2, 1)];
    assert!(rt; !pad_and_logic_are_legal(alloc, &grid, &Fixed::none(alloc), crossed)?);
    Ok(())
}

// Whether a placement without blocks is legal.
fn none_are_legal(alloc: Global, design: &Design) -> Result<bool, Fail> {
    let grid = Grid::new(2, 2, 2)?;
    let draft = Draft::new(alloc, 0, &grid)?;
    match finished(draft)? {
        Some(placement) => Ok(is_legal(design, &grid, &Fixed::none(alloc), &placement)),
        None => Err(Fail::from("no placement")),
    }
}

#[test]
fn no_blocks_are_not_legal(rt: HostRuntime) -> Result<(), Fail> {
    let design = pad_and_logic(rt.alloc())?;
    assert!(rt; !none_are_legal(rt.alloc(), &design)?);
    Ok(())
}

// Words that are all 0 except these start words.
fn start_words(alloc: Global, starts: &[u32]) -> Result<ListWords, AllocError> {
    Ok(ListWords {
        starts: Vec::from_slice(alloc, starts)?,
        moves: Vec::new(alloc),
    })
}

fn no_pins(alloc: Global) -> Pins
    ensures { (result.fixed ≡ []) × (result.begun ≡ []) }
{
    Pins {
        fixed: Fixed::none(alloc),
        begun: Fixed::none(alloc),
    }
}

// The start placement without given blocks, if the array holds the design.
fn started(
    alloc: Global,
    design: &Design,
    grid: &Grid,
    starts: &[u32],
) -> Result<Option<Placement>, AllocError> {
    if grid.holds(design.logic_blocks(), design.pads()).is_err() {
        return Ok(None);
    }
    let words = start_words(alloc, starts)?;
    let placement = start(alloc, design, grid, &no_pins(alloc), &words)?;
    Ok(Some(placement))
}

// A pad and two logic blocks.
fn three_blocks(alloc: Global) -> Result<Design, Fail> {
    let arch = read_arch(alloc, b"io_rat 1\ninpin class: 0 global top\n")?;
    let text =
        b".global clk\n.input ck\npinlist: clk\n.clb b1\npinlist: clk\n.clb b2\npinlist: clk\n";
    Ok(read_net(alloc, text, &arch)?)
}

// Their start sites, on an array of 2 by 2.
fn sites_at_start(
    alloc: Global,
    design: &Design,
    starts: &[u32],
) -> Result<Option<[Site; 3]>, Fail> {
    let grid = Grid::new(2, 2, 1)?;
    match started(alloc, design, &grid, starts)? {
        Some(placement) => Ok(three_sites(&placement)),
        None => Ok(None),
    }
}

fn three_started(alloc: Global, starts: &[u32]) -> Result<Option<[Site; 3]>, Fail> {
    let design = three_blocks(alloc)?;
    sites_at_start(alloc, &design, starts)
}

fn three_sites(placement: &Placement) -> Option<[Site; 3]> {
    if placement.blocks() == 3 {
        Some([
            placement.site_of(BlockId(0)),
            placement.site_of(BlockId(1)),
            placement.site_of(BlockId(2)),
        ])
    } else {
        None
    }
}

#[test]
fn blocks_draw_their_start_sites(rt: HostRuntime) -> Result<(), Fail> {
    let alloc = rt.alloc();
    let first = [site(0, 1, 0), site(1, 1, 0), site(2, 2, 0)];
    assert_eq!(rt; three_started(alloc, &[])?, Some(first));
    // The pad draws the fifth of 8 positions; the logic blocks draw the third of 4 and then the third of 3.
    let second = [site(3, 2, 0), site(1, 2, 0), site(2, 2, 0)];
    assert_eq!(rt;
        three_started(alloc, &[2_147_483_648, 2_147_483_648, 4_294_967_295])?,
        Some(second)
    );
    Ok(())
}

#[test]
fn listed_words_end_in_zeros(rt: HostRuntime) -> Result<(), Fail> {
    let alloc = rt.alloc();
    let mut words = start_words(alloc, &[7, 8])?;
    words.moves.push([1, 2, 3, 4])?;
    assert_eq!(rt; (words.start_word(1), words.start_word(2)), (8, 0));
    assert_eq!(rt; words.move_words(0), [1, 2, 3, 4]);
    assert_eq!(rt; words.move_words(1), [0; 4]);
    assert_eq!(rt;
        (pick(4_294_967_295, 3), pick(2_147_483_648, 3), pick(5, 0)),
        (2, 1, 0)
    );
    Ok(())
}
