ghost use Rattle.std.specs.Prelude.{◌≡◌, ℕ, ◌<◌, ◌^◌, if◌then◌else◌, List, [], Some, length, slice_get, IsTrue, IfSome};
ghost use Rattle.fab_arch.specs.declared.array.Site.{Site as ArraySite};
ghost use Rattle.fab_arch.specs.declared.array.SiteKind.TheVariants.{Logic, Pad};
ghost use Rattle.fab_arch.specs.Grid.{GridShape};
ghost use Rattle.fab_net.specs.Netlist.{is_logic};
ghost use Rattle.fab_site.specs.Placement.{Fits, IsLegal, IsSwapOf, site_of, swapped};
ghost use Rattle.fab_cost.specs.Boxes.{StandsFor};
ghost use Rattle.fab_cost.specs.Swapping.{CountedStandsFor};

use fab_arch::{Grid, Site, SiteKind, read_arch};
use fab_cost::{Boxes, EdgeBoxes, WireCost, cross};
use fab_net::{BlockId, BlockKind, Design, NetId, read_net};
use fab_site::{Placement, Swap};
use std::alloc::{AllocError, Global};
use std::test::*;

fn site(x: u16, y: u16, sub: u16) -> Site {
    Site { x, y, sub }
}

fn wanted(kind: BlockKind) -> SiteKind
    ensures { result ≡ (if is_logic kind then Logic else Pad) }
{
    match kind {
        BlockKind::Logic => SiteKind::Logic,
        BlockKind::InputPad | BlockKind::OutputPad => SiteKind::Pad,
    }
}

#[tactic(auto, using(crate::proofs::Tested::fits_if))]
fn fits(design: &Design, grid: &Grid, block: usize, site: Site) -> bool
    requires { block < length design.now.kinds }
    ensures { IsTrue result → Fits design.now grid.now block site }
{
    let _blocks = design.blocks();
    let kind = design.kind(BlockId(block as u32));
    match grid.has_site(site) {
        Some(found) => found == wanted(kind),
        None => false,
    }
}

/// Whether no earlier block has the site of this one.
fn is_free(sites: &[Site], block: usize) -> bool
    requires { block < length sites.now }
    ensures { IsTrue result → (b : ℕ) → b < block →
        ¬ (site_of sites.now b ≡ site_of sites.now block) }
{
    for other in 0..block {
        if sites[other] == sites[block] {
            return false;
        }
    }
    true
}

fn is_legal(design: &Design, grid: &Grid, sites: &[Site]) -> bool
    ensures { IsTrue result → IsLegal design.now grid.now [] sites.now }
{
    if sites.len() != design.blocks() {
        return false;
    }
    for block in 0..sites.len() {
        if !fits(design, grid, block, sites[block]) || !is_free(sites, block) {
            return false;
        }
    }
    true
}

/// The cost of the blocks on these sites, or `None` where the sites are not legal.
fn cost_of(
    alloc: Global,
    design: &Design,
    grid: &Grid,
    sites: &[Site],
) -> Result<Option<u64>, AllocError> {
    if !is_legal(design, grid, sites) {
        return Ok(None);
    }
    let placement = Placement::of_sites(alloc, design, grid, sites)?;
    Ok(Some(Boxes::new(alloc, design, grid, &placement)?.cost()))
}

/// The same from texts, on an array of `nx` by `ny`.
fn cost_on(
    alloc: Global,
    arch: &[u8],
    net: &[u8],
    nx: u16,
    ny: u16,
    sites: &[Site],
) -> Result<Option<u64>, Fail> {
    let arch = read_arch(alloc, arch)?;
    let grid = Grid::new(nx, ny, arch.io_rat)?;
    let design = read_net(alloc, net, &arch)?;
    Ok(cost_of(alloc, &design, &grid, sites)?)
}

#[test]
fn cross_counts_of_the_table_and_beyond(rt: HostRuntime) {
    for (terminals, count) in [
        (1, 10000),
        (4, 10828),
        (11, 14974),
        (21, 19288),
        (31, 22646),
        (41, 25610),
        (50, 27933),
        (51, 28194),
        (60, 30549),
    ] {
        assert_eq!(rt; cross(terminals), count, "at {terminals}");
    }
}

#[test]
fn costs_are_those_of_the_reference(rt: HostRuntime) -> Result<(), Fail> {
    let alloc = rt.alloc();

    let arch = b"io_rat 2\ninpin class: 0 left\n";
    let net =
        b".input a\npinlist: n\n.clb b1\npinlist: n\n.clb b2\npinlist: n\n.clb b3\npinlist: n\n";
    let sites = [site(0, 2, 1), site(1, 1, 0), site(3, 3, 0), site(2, 2, 0)];
    assert_eq!(rt;
        cost_on(alloc, arch, net, 3, 3, &sites)?,
        Some(64968),
        "a pad and three blocks"
    );

    let arch = b"io_rat 1\ninpin class: 0 left\ninpin class: 0 left\noutpin class: 1 right\n";
    let net = b".clb b1\npinlist: open open n\n.clb b2\npinlist: n n open\n";
    let sites = [site(1, 1, 0), site(2, 2, 0)];
    assert_eq!(rt;
        cost_on(alloc, arch, net, 2, 2, &sites)?,
        Some(40000),
        "two pins of a block"
    );

    let arch = b"io_rat 1\ninpin class: 0 left\n";
    let net = b".input a\npinlist: n\n.output z\npinlist: n\n";
    let sites = [site(5, 1, 0), site(2, 4, 0)];
    assert_eq!(rt;
        cost_on(alloc, arch, net, 4, 3, &sites)?,
        Some(60000),
        "pads at the right and the top"
    );
    Ok(())
}

#[test]
fn a_global_net_costs_nothing(rt: HostRuntime) -> Result<(), Fail> {
    let arch = b"io_rat 1\ninpin class: 0 left\n";
    let nets =
        b".input ck\npinlist: clk\n.clb b1\npinlist: clk\n.input a\npinlist: n\n.clb b2\npinlist: n\n";
    let global =
        b".global clk\n.input ck\npinlist: clk\n.clb b1\npinlist: clk\n.input a\npinlist: n\n.clb b2\npinlist: n\n";
    let sites = [site(0, 1, 0), site(1, 1, 0), site(4, 2, 0), site(2, 1, 0)];
    assert_eq!(rt; cost_on(rt.alloc(), arch, nets, 3, 2, &sites)?, Some(60000));
    assert_eq!(rt;
        cost_on(rt.alloc(), arch, global, 3, 2, &sites)?,
        Some(40000)
    );
    Ok(())
}

#[test]
fn a_net_of_500_terminals(rt: HostRuntime) -> Result<(), Fail> {
    let alloc = rt.alloc();
    let mut arch = Vec::from_slice(alloc, b"io_rat 1\n")?;
    let mut net = Vec::from_slice(alloc, b".input a\npinlist: n\n.clb b\npinlist:")?;
    for _ in 0..499 {
        arch.extend_from_slice(b"inpin class: 0 left\n")?;
        net.extend_from_slice(b" n")?;
    }
    let sites = [site(0, 2, 0), site(3, 1, 0)];
    assert_eq!(rt; cost_on(alloc, &arch, &net, 3, 2, &sites)?, Some(728265));
    Ok(())
}

// The site of a block; `None` if there is no block with this number.
fn site_of_block(placement: &Placement, block: BlockId) -> Option<Site>
    ensures { IfSome result (λ s. slice_get placement.now.sites block.0 ≡ Some s) }
{
    if (block.0 as usize) < placement.blocks() {
        Some(placement.site_of(block))
    } else {
        None
    }
}

// The swap of a block to another site of the same kind as its own; `None` if `to` is not such a site.
fn swap_to(placement: &Placement, grid: &Grid, block: BlockId, to: Site) -> Option<Swap>
    ensures { IfSome result (λ s. IsSwapOf grid.now placement.now.sites s) }
{
    let from = site_of_block(placement, block)?;
    let kind = grid.has_site(from);
    if from == to || kind.is_none() || grid.has_site(to) != kind {
        return None;
    }
    let other = placement.at(to);
    Some(Swap {
        block,
        from,
        to,
        other,
    })
}

// Makes the swap. Returns the change of cost, and the cost after it.
fn made<W: WireCost>(
    wire: &mut W,
    design: &Design,
    grid: &Grid,
    placement: &Placement,
    swap: &Swap,
) -> (i64, u64)
    requires stands { W.StandsFor wire.old design.now grid.now placement.now.sites }
    requires lawful { IsSwapOf grid.now placement.now.sites swap.now }
    ensures stands { W.StandsFor wire.new design.now grid.now
        (swapped placement.now.sites swap.now) }
    ensures below { result.1 < 2 ^ 43 }
{
    let delta = wire.delta(design, grid, placement, swap);
    wire.apply(design, grid, placement, swap);
    (delta, wire.cost())
}

// The edge counts of the first net (xmin, xmax, ymin, ymax); `None` if there is no net.
fn first_counts(design: &Design, edges: &EdgeBoxes) -> Option<[u32; 4]>
    requires { (g : GridShape) × (sites : List ArraySite) ×
        CountedStandsFor edges.now design.now g sites }
{
    if design.nets() == 0 {
        return None;
    }
    Some(edges.edge_counts(NetId(0)))
}

// The cost and the edge counts of the first net before and after a swap, the change of cost, the same after a swap that is made by its
// known change, and the cost of an unchanged copy.
#[derive(Clone, Copy, PartialEq, Eq, Debug)]
struct Row {
    cost: u64,
    counts: Option<[u32; 4]>,
    delta: i64,
    cost_after: u64,
    counts_after: Option<[u32; 4]>,
    cost_known: u64,
    counts_known: Option<[u32; 4]>,
    cost_of_the_copy: u64,
}

// The row of a swap that is made on `edges`, and not on a copy.
fn swapped_row(
    design: &Design,
    grid: &Grid,
    placement: &Placement,
    mut edges: EdgeBoxes,
    swap: &Swap,
) -> Result<Row, AllocError>
    requires stands { CountedStandsFor edges design.now grid.now placement.now.sites }
    requires lawful { IsSwapOf grid.now placement.now.sites swap.now }
{
    let copy = edges.copy()?;
    let cost = WireCost::cost(&edges);
    let counts = first_counts(design, &edges);
    let mut known = edges.copy()?;
    let change = known.delta(design, grid, placement, swap);
    known.apply_known(design, grid, placement, swap, change);
    let (delta, cost_after) = made(&mut edges, design, grid, placement, swap);
    Ok(Row {
        cost,
        counts,
        delta,
        cost_after,
        counts_after: first_counts(design, &edges),
        cost_known: WireCost::cost(&known),
        counts_known: first_counts(design, &known),
        cost_of_the_copy: WireCost::cost(&copy),
    })
}

// The row of a swap from these sites; `None` if there is no such placement or swap.
fn row_on(
    alloc: Global,
    design: &Design,
    grid: &Grid,
    sites: &[Site],
    block: BlockId,
    to: Site,
) -> Result<Option<Row>, AllocError> {
    if !is_legal(design, grid, sites) {
        return Ok(None);
    }
    let placement = Placement::of_sites(alloc, design, grid, sites)?;
    let edges = EdgeBoxes::new(alloc, design, grid, &placement)?;
    match swap_to(&placement, grid, block, to) {
        None => Ok(None),
        Some(swap) => swapped_row(design, grid, &placement, edges, &swap).map(Some),
    }
}

// The same from texts, on an array of `side` by `side`.
fn row_of(
    alloc: Global,
    arch: &[u8],
    net: &[u8],
    side: u16,
    sites: &[Site],
    block: BlockId,
    to: Site,
) -> Result<Option<Row>, Fail> {
    let arch = read_arch(alloc, arch)?;
    let grid = Grid::new(side, side, arch.io_rat)?;
    let design = read_net(alloc, net, &arch)?;
    Ok(row_on(alloc, &design, &grid, sites, block, to)?)
}

fn counts(xmin: u32, xmax: u32, ymin: u32, ymax: u32) -> Option<[u32; 4]> {
    Some([xmin, xmax, ymin, ymax])
}

#[test]
fn two_pins_of_a_block_count_twice(rt: HostRuntime) -> Result<(), Fail> {
    let arch = b"io_rat 1\ninpin class: 0 left\ninpin class: 0 left\noutpin class: 1 right\n";
    let net = b".clb b1\npinlist: open open n\n.clb b2\npinlist: n n open\n";
    let sites = [site(1, 1, 0), site(2, 2, 0)];
    let found = row_of(rt.alloc(), arch, net, 2, &sites, BlockId(0), site(2, 2, 0))?;
    assert_eq!(rt;
        found,
        Some(Row {
            cost: 40000,
            counts: counts(1, 2, 1, 2),
            delta: 0,
            cost_after: 40000,
            counts_after: counts(2, 1, 2, 1),
            cost_known: 40000,
            counts_known: counts(2, 1, 2, 1),
            cost_of_the_copy: 40000,
        })
    );
    Ok(())
}

#[test]
fn a_box_shrinks_where_its_last_terminal_leaves(rt: HostRuntime) -> Result<(), Fail> {
    let arch = b"io_rat 1\ninpin class: 0 left\noutpin class: 1 right\n";
    let net = b".clb b1\npinlist: open n\n.clb b2\npinlist: n open\n.clb b3\npinlist: n open\n";
    let sites = [site(1, 1, 0), site(2, 2, 0), site(3, 3, 0)];
    let found = row_of(rt.alloc(), arch, net, 3, &sites, BlockId(0), site(2, 1, 0))?;
    assert_eq!(rt;
        found,
        Some(Row {
            cost: 60000,
            counts: counts(1, 1, 1, 1),
            delta: -10000,
            cost_after: 50000,
            counts_after: counts(2, 1, 1, 1),
            cost_known: 50000,
            counts_known: counts(2, 1, 1, 1),
            cost_of_the_copy: 60000,
        })
    );
    Ok(())
}

// Makes the swap with both kinds of cost. Returns whether both agree with the whole sums before and after it.
fn agree(
    alloc: Global,
    boxes: &mut Boxes,
    edges: &mut EdgeBoxes,
    design: &Design,
    grid: &Grid,
    placement: &mut Placement,
    swap: &Swap,
) -> Result<bool, AllocError>
    requires boxes { StandsFor boxes.old design.now grid.now placement.old.sites }
    requires edges { CountedStandsFor edges.old design.now grid.now placement.old.sites }
    requires grid { placement.old.grid ≡ grid.now }
    requires lawful { IsSwapOf placement.old.grid placement.old.sites swap.now }
    ensures boxes { StandsFor boxes.new design.now grid.now placement.new.sites }
    ensures edges { CountedStandsFor edges.new design.now grid.now placement.new.sites }
    ensures grid { placement.new.grid ≡ grid.now }
{
    let before = WireCost::cost(&*edges);
    let first = made(boxes, design, grid, &*placement, swap);
    let second = made(edges, design, grid, &*placement, swap);
    placement.apply(swap);
    let after = Boxes::new(alloc, design, grid, &*placement)?.cost();
    Ok(first == second && second == (after as i64 - before as i64, after))
}

// The next numbers of a linear congruential generator (Knuth's constants).
fn next(state: u64) -> u64 {
    state
        .wrapping_mul(6364136223846793005)
        .wrapping_add(1442695040888963407)
}

// A number below `count` from the upper bits.
fn drawn(state: u64, count: u16) -> u16
    requires { 0 < count }
{
    ((state >> 33) % u64::from(count)) as u16
}

// How many blocks and columns a test draws from, and how many swaps it makes.
#[derive(Clone, Copy)]
struct Draws {
    blocks: u16,
    columns: u16,
    wanted: u32,
}

// Makes swaps of randomly drawn blocks and sites. Returns whether both kinds of cost agree with the whole sums at each.
fn agree_at_each(
    alloc: Global,
    boxes: &mut Boxes,
    edges: &mut EdgeBoxes,
    design: &Design,
    grid: &Grid,
    placement: &mut Placement,
    draws: Draws,
) -> Result<bool, AllocError>
    requires some { (0 < draws.blocks) × (0 < draws.columns) }
    requires boxes { StandsFor boxes.old design.now grid.now placement.old.sites }
    requires edges { CountedStandsFor edges.old design.now grid.now placement.old.sites }
    requires grid { placement.old.grid ≡ grid.now }
    ensures edges { CountedStandsFor edges.new design.now grid.now placement.new.sites }
{
    let mut left = draws.wanted;
    let mut state = 1;
    'draws: for _ in 0..u64::MAX {
        if left == 0 {
            return Ok(true);
        }
        let first = next(state);
        let second = next(first);
        let third = next(second);
        state = next(third);
        let block = BlockId(u32::from(drawn(first, draws.blocks)));
        let to = site(
            drawn(second, draws.columns),
            drawn(third, draws.columns),
            drawn(state, 2),
        );
        if let Some(swap) = swap_to(&*placement, grid, block, to) {
            if !agree(alloc, boxes, edges, design, grid, placement, &swap)? {
                return Ok(false);
            }
            left -= 1;
        }
    }
    Ok(false)
}

// The same from these sites, and whether each net has the edge counts of a new value at the end; `None` if the sites are not legal.
fn both_agree(
    alloc: Global,
    design: &Design,
    grid: &Grid,
    sites: &[Site],
    draws: Draws,
) -> Result<Option<bool>, AllocError>
    requires { (0 < draws.blocks) × (0 < draws.columns) }
{
    if !is_legal(design, grid, sites) {
        return Ok(None);
    }
    let mut placement = Placement::of_sites(alloc, design, grid, sites)?;
    let mut boxes = Boxes::new(alloc, design, grid, &placement)?;
    let mut edges = EdgeBoxes::new(alloc, design, grid, &placement)?;
    let agree = agree_at_each(
        alloc,
        &mut boxes,
        &mut edges,
        design,
        grid,
        &mut placement,
        draws,
    )?;
    let anew = EdgeBoxes::new(alloc, design, grid, &placement)?;
    Ok(Some(agree && have_same_counts(design, &edges, &anew)))
}

// Has nets on both blocks of a swap, nets on two and three pins of a block, nets with one terminal, nets on pads, and a global net.
const TEN_BLOCKS: &[u8] = b".global clk\n.input ck\npinlist: clk\n.input a\npinlist: m\n\
    .output z\npinlist: n\n.clb b1\npinlist: m clk m n\n.clb b2\npinlist: n n m p\n\
    .clb b3\npinlist: p m open q\n.clb b4\npinlist: q p n r\n.clb b5\npinlist: m m m s\n\
    .clb b6\npinlist: open open open t\n.clb b7\npinlist: r s q open\n";

// Whether both kinds of cost agree over `wanted` swaps; `None` if the blocks have no legal sites.
fn agree_over(alloc: Global, wanted: u32) -> Result<Option<bool>, Fail> {
    let arch = read_arch(
        alloc,
        b"io_rat 2\ninpin class: 0 left\ninpin class: 0 left\ninpin class: 0 top\noutpin class: 1 right\n",
    )?;
    let grid = Grid::new(4, 4, arch.io_rat)?;
    let sites = [
        site(0, 1, 0),
        site(0, 1, 1),
        site(5, 4, 0),
        site(1, 1, 0),
        site(2, 2, 0),
        site(3, 3, 0),
        site(4, 4, 0),
        site(1, 4, 0),
        site(4, 1, 0),
        site(2, 3, 0),
    ];
    let design = read_net(alloc, TEN_BLOCKS, &arch)?;
    let draws = Draws {
        blocks: 10,
        columns: 6,
        wanted,
    };
    Ok(both_agree(alloc, &design, &grid, &sites, draws)?)
}

#[test]
fn both_kinds_agree_with_whole_sums(rt: HostRuntime) -> Result<(), Fail> {
    assert_eq!(rt; agree_over(rt.alloc(), 10000)?, Some(true));
    Ok(())
}

// The terminals of nets on both sides of each size at which a change of cost is found otherwise. Block `i` drives net `i`.
const SIZES: [u16; 15] = [2, 2, 4, 4, 5, 5, 8, 8, 9, 9, 16, 16, 17, 17, 500];

const BLOCKS: u16 = 24;

const PINS: u16 = 48;

// The block of sink `k` of a net: each block in turn, or each twice in turn.
fn sink_block(net: u64, k: u16) -> u16 {
    let step = if net % 2 == 0 { k } else { k / 2 };
    (net.wrapping_mul(5).wrapping_add(u64::from(step)) % u64::from(BLOCKS)) as u16
}

// Adds the lines of a block.
fn push_block(alloc: Global, text: &mut Vec<u8>, block: u16) -> Result<(), Fail> {
    text.extend_from_slice(format!(in alloc; ".clb b{block}\npinlist:")?.as_bytes())?;
    let mut pins: u16 = 0;
    let mut net: u64 = 0;
    for size in SIZES {
        for k in 1..size {
            if sink_block(net, k) == block {
                text.extend_from_slice(format!(in alloc; " n{net}")?.as_bytes())?;
                pins = pins.wrapping_add(1);
            }
        }
        net = net.wrapping_add(1);
    }
    for _ in pins..PINS {
        text.extend_from_slice(b" open")?;
    }
    if (block as usize) < SIZES.len() {
        text.extend_from_slice(format!(in alloc; " n{block}\n")?.as_bytes())?;
    } else {
        text.extend_from_slice(b" open\n")?;
    }
    Ok(())
}

// Whether both kinds of cost agree over `wanted` swaps of blocks with nets of these sizes; `None` if the blocks have no legal sites.
fn agree_over_sizes(alloc: Global, wanted: u32) -> Result<Option<bool>, Fail> {
    let mut arch = Vec::from_slice(alloc, b"io_rat 1\n")?;
    for _ in 0..PINS {
        arch.extend_from_slice(b"inpin class: 0 left\n")?;
    }
    arch.extend_from_slice(b"outpin class: 1 right\n")?;
    let arch = read_arch(alloc, &arch)?;
    let grid = Grid::new(6, 6, arch.io_rat)?;
    let mut net = Vec::new(alloc);
    let mut sites = Vec::new(alloc);
    for block in 0..BLOCKS {
        push_block(alloc, &mut net, block)?;
        sites.push(site(1 + block % 6, 1 + block / 6, 0))?;
    }
    let design = read_net(alloc, &net, &arch)?;
    let draws = Draws {
        blocks: BLOCKS,
        columns: 8,
        wanted,
    };
    Ok(both_agree(alloc, &design, &grid, &sites, draws)?)
}

#[test]
fn both_kinds_agree_at_each_size_of_nets(rt: HostRuntime) -> Result<(), Fail> {
    assert_eq!(rt; agree_over_sizes(rt.alloc(), 10000)?, Some(true));
    Ok(())
}

// Whether both have the same edge counts for each net.
fn have_same_counts(design: &Design, one: &EdgeBoxes, other: &EdgeBoxes) -> bool
    requires one { length one.now.boxes ≡ length design.now.terminals }
    requires other { length other.now.boxes ≡ length design.now.terminals }
{
    let nets = design.nets();
    for number in 0..nets {
        let net = NetId(number as u32);
        if one.edge_counts(net) != other.edge_counts(net) {
            return false;
        }
    }
    true
}

#[tactic(auto, using(fab_cost::proofs::Sited::block_below))]
// The cost of a copy before and after it takes over a swap, and whether it then has the cost and counts of the value that made it.
fn caught_up(
    design: &Design,
    grid: &Grid,
    placement: &Placement,
    mut edges: EdgeBoxes,
    swap: &Swap,
) -> Result<(u64, u64, bool), AllocError>
    requires stands { CountedStandsFor edges design.now grid.now placement.now.sites }
    requires lawful { IsSwapOf grid.now placement.now.sites swap.now }
{
    let mut copy = edges.copy()?;
    let before = WireCost::cost(&copy);
    let (_, cost) = made(&mut edges, design, grid, placement, swap);
    copy.take_over(design, grid, swap, &edges);
    let after = WireCost::cost(&copy);
    Ok((
        before,
        after,
        after == cost && have_same_counts(design, &copy, &edges),
    ))
}

// The same from these sites; `None` if they are not legal or there is no such swap.
fn caught_up_on(
    alloc: Global,
    design: &Design,
    grid: &Grid,
    sites: &[Site],
    block: BlockId,
    to: Site,
) -> Result<Option<(u64, u64, bool)>, AllocError> {
    if !is_legal(design, grid, sites) {
        return Ok(None);
    }
    let placement = Placement::of_sites(alloc, design, grid, sites)?;
    let edges = EdgeBoxes::new(alloc, design, grid, &placement)?;
    match swap_to(&placement, grid, block, to) {
        None => Ok(None),
        Some(swap) => caught_up(design, grid, &placement, edges, &swap).map(Some),
    }
}

// What `caught_up` returns for a ring of four blocks of which the first goes to this site.
fn ring_caught_up(alloc: Global, to: Site) -> Result<Option<(u64, u64, bool)>, Fail> {
    let arch = read_arch(
        alloc,
        b"io_rat 1\ninpin class: 0 left\noutpin class: 1 right\n",
    )?;
    let grid = Grid::new(3, 3, arch.io_rat)?;
    let sites = [site(1, 1, 0), site(3, 2, 0), site(2, 3, 0), site(3, 3, 0)];
    let design = read_net(
        alloc,
        b".clb a\npinlist: m n\n.clb b\npinlist: n p\n.clb c\npinlist: p q\n.clb d\npinlist: q m\n",
        &arch,
    )?;
    Ok(caught_up_on(alloc, &design, &grid, &sites, BlockId(0), to)?)
}

#[test]
fn a_copy_takes_over_a_swap(rt: HostRuntime) -> Result<(), Fail> {
    let displacing = ring_caught_up(rt.alloc(), site(3, 2, 0))?;
    assert_eq!(rt; displacing, Some((180000, 160000, true)));
    let alone = ring_caught_up(rt.alloc(), site(2, 2, 0))?;
    assert_eq!(rt; alone, Some((180000, 140000, true)));
    Ok(())
}
