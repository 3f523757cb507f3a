//! The nets of each block by size. Nets with up to 16 terminals are records of the other blocks on them, in three tables. Larger nets are
//! places among the block's nets.

ghost use Rattle.std.specs.Prelude.{◌≡◌, ℕ, ◌<◌, ◌≤◌, ◌+◌, ◌&&◌, ◌==◌, not, true, IfOk, OnOk, map, length, slice_index};
ghost use Rattle.std.specs.List.{All};
ghost use Rattle.fab_net.specs.Netlist.{block_on, has_number, nets_of};
ghost use Rattle.fab_cost.specs.Cost.{cross_of};
ghost use Rattle.fab_cost.specs.Boxes.{Counts};
ghost use Rattle.fab_cost.specs.Runs.{AreLarger, AreListed, ArePacked, HasLarge, HasRecords, HasRows, is_large};
ghost use Rattle.fab_cost.specs.Swapping.{counted_blocks};

use crate::block_nets::{count_of_nets, net_of};
use crate::crossings::cross;
use crate::records::Record;
use crate::sized_rows::{SizedRows, together};
use fab_net::rows::{Rows, gather};
use fab_net::{BlockId, Design, NetId, Terminal};
use std::alloc::{AllocError, Global};

/// For each block: its nets with 2 to 4, 5 to 8 and 9 to 16 terminals, and the places among its nets of those with more. Nets of one
/// terminal are left out, since they cost the same everywhere. For each net that is not global: the block of each terminal.
pub struct Runs {
    pub(crate) rows: SizedRows,
    pub(crate) terminals: Rows<u16>,
}

impl Drop for Runs {
    // A `drop` by hand is proved once; a derived `drop` is proved again wherever a value goes out of scope.
    fn drop(self) {
        let Runs {
            rows: _,
            terminals: _,
        } = self;
    }
}

const SMALL: usize = 4;

const MIDDLE: usize = 8;
/// For nets with up to this many terminals, changes are computed from the positions of their blocks. For larger nets the box is kept.
pub(crate) const WIDE: usize = 16;

/// Whether a net has more than 16 terminals.
pub fn has_many_terminals(design: &Design, net: NetId) -> bool
    requires { net.0 < length design.now.terminals }
    ensures { result ≡ is_large design.now net.0 }
{
    WIDE < design.terminals(net).len()
}

/// The record of a net of a block; `none` is the number past the last block.
#[tactic(auto, using(crate::proofs::Packs::filled_none, crate::proofs::Packs::filled_own, crate::proofs::Packs::filled_other, crate::proofs::Packs::place_within, crate::proofs::Packs::filled_all, crate::proofs::Packs::small_cross))]
fn record_of<const W: usize>(none: u16, block: BlockId, terminals: &[Terminal]) -> Record<W>
    requires some { 0 < length terminals.now }
    requires few { length terminals.now ≤ W + 1 }
    requires small { length terminals.now ≤ 16 }
    requires on { has_number block.0 (map block_on terminals.now) ≡ true }
    requires blocks { All (λ t. t.block.0 < none) terminals.now }
    ensures each { (k : ℕ) → k < none →
        has_number k result.others ≡
        (has_number k (map block_on terminals.now) && not (k == block.0)) }
    ensures within { (j : ℕ) → j < length result.others → slice_index result.others j ≤ none }
    ensures factor { result.factor ≡ cross_of (length terminals.now) }
{
    let mut others = [none; W];
    // One entry less than there are terminals is enough, since the block itself is left out.
    let mut skip: usize = 0;
    'terminals: for i in 0..terminals.len() {
        let other = terminals[i].block.0;
        if other == block.0 {
            skip = 1;
        } else {
            others[i - skip] = other as u16;
        }
    }
    let factor = cross(terminals.len() as u32) as u16;
    Record { others, factor }
}

/// Adds net `i` of a block, if it has more than `above` and at most `most` terminals.
#[tactic(auto, using(crate::proofs::Packs::packed_pushed, crate::proofs::Packs::packed_passed, crate::proofs::Packs::record_is, crate::proofs::Packs::sized_by, crate::proofs::Packs::unsized_by))]
fn push_record<const W: usize>(
    entries: &mut Vec<(u32, Record<W>)>,
    design: &Design,
    block: BlockId,
    i: usize,
    above: usize,
    most: usize,
) -> Result<(), AllocError>
    requires block { block.0 < length design.now.kinds }
    requires within { i < length (nets_of design.now block.0) }
    requires narrow { W ≤ 15 }
    requires width { most ≤ W + 1 }
    requires small { most ≤ 16 }
    requires packed { ArePacked design.now above most block.0 i entries.old.items }
    ensures { OnOk result (ArePacked design.now above most block.0 (i + 1) entries.new.items) }
{
    let none = design.blocks() as u16;
    let _nets = design.nets();
    let net = net_of(design, block, i);
    let terminals = design.terminals(net);
    if above < terminals.len() && terminals.len() <= most {
        entries.push((block.0, record_of(none, block, terminals)))?;
    }
    Ok(())
}

/// Adds the nets of a block that have more than `above` and at most `most` terminals.
#[tactic(auto, using(crate::proofs::Packs::packed_next, crate::proofs::Steps::nets_few))]
fn push_records<const W: usize>(
    entries: &mut Vec<(u32, Record<W>)>,
    design: &Design,
    block: BlockId,
    above: usize,
    most: usize,
) -> Result<(), AllocError>
    requires block { block.0 < length design.now.kinds }
    requires narrow { W ≤ 15 }
    requires width { most ≤ W + 1 }
    requires small { most ≤ 16 }
    requires packed { ArePacked design.now above most block.0 0 entries.old.items }
    ensures { OnOk result (ArePacked design.now above most (block.0 + 1) 0 entries.new.items) }
{
    let _nets = design.nets();
    let nets = count_of_nets(design, block);
    'nets: for i in 0..nets {
        push_record(entries, design, block, i, above, most)?;
    }
    Ok(())
}

/// For each block, its nets with more than `above` and at most `most` terminals.
#[tactic(auto, using(crate::proofs::Packs::packed_none, crate::proofs::Packs::packed_all, crate::proofs::Packs::packed_few, crate::proofs::Packs::packed_within))]
fn records_between<const W: usize>(
    alloc: Global,
    design: &Design,
    above: usize,
    most: usize,
) -> Result<Rows<Record<W>>, AllocError>
    requires narrow { W ≤ 15 }
    requires width { most ≤ W + 1 }
    requires small { most ≤ 16 }
    ensures { IfOk result (λ rows. HasRows design.now above most rows) }
{
    let mut entries = Vec::new(alloc);
    let blocks = design.blocks();
    'blocks: for number in 0..blocks {
        push_records(&mut entries, design, BlockId(number as u32), above, most)?;
    }
    let blank = Record {
        others: [0; W],
        factor: 0,
    };
    gather(alloc, blocks, &entries, blank)
}

/// Adds the place `i` of a block's net, if the net has more than 16 terminals.
#[tactic(auto, using(crate::proofs::Packs::larger_pushed, crate::proofs::Packs::larger_passed, crate::proofs::Packs::large_by, crate::proofs::Packs::not_large_by))]
fn push_large(
    entries: &mut Vec<(u32, u32)>,
    design: &Design,
    block: BlockId,
    i: usize,
) -> Result<(), AllocError>
    requires block { block.0 < length design.now.kinds }
    requires within { i < length (nets_of design.now block.0) }
    requires few { i < 65536 }
    requires larger { AreLarger design.now block.0 i entries.old.items }
    ensures { OnOk result (AreLarger design.now block.0 (i + 1) entries.new.items) }
{
    let _nets = design.nets();
    let net = net_of(design, block, i);
    if WIDE < design.terminals(net).len() {
        entries.push((block.0, i as u32))?;
    }
    Ok(())
}

/// Adds the places of a block's nets with more than 16 terminals.
#[tactic(auto, using(crate::proofs::Packs::larger_next, crate::proofs::Steps::nets_few))]
fn push_larges(
    entries: &mut Vec<(u32, u32)>,
    design: &Design,
    block: BlockId,
) -> Result<(), AllocError>
    requires block { block.0 < length design.now.kinds }
    requires larger { AreLarger design.now block.0 0 entries.old.items }
    ensures { OnOk result (AreLarger design.now (block.0 + 1) 0 entries.new.items) }
{
    let _nets = design.nets();
    let nets = count_of_nets(design, block);
    'nets: for i in 0..nets {
        push_large(entries, design, block, i)?;
    }
    Ok(())
}

/// For each block, the places of its nets with more than 16 terminals.
#[tactic(auto, using(crate::proofs::Packs::larger_none, crate::proofs::Packs::larger_all, crate::proofs::Packs::larger_few, crate::proofs::Packs::larger_within))]
fn large_nets(alloc: Global, design: &Design) -> Result<Rows<u32>, AllocError>
    ensures { IfOk result (λ rows. HasLarge design.now rows) }
{
    let mut entries = Vec::new(alloc);
    let blocks = design.blocks();
    'blocks: for number in 0..blocks {
        push_larges(&mut entries, design, BlockId(number as u32))?;
    }
    gather(alloc, blocks, &entries, 0)
}

/// Adds the blocks of a net's terminals.
#[tactic(auto, using(crate::proofs::Listings::listing_none, crate::proofs::Listings::listing_more))]
fn push_blocks(entries: &mut Vec<(u32, u16)>, design: &Design, net: NetId) -> Result<(), AllocError>
    requires net { Counts design.now net.0 }
    requires listed { AreListed design.now net.0 entries.old.items }
    ensures { OnOk result (AreListed design.now (net.0 + 1) entries.new.items) }
{
    let _nets = design.nets();
    let terminals = design.terminals(net);
    'terminals: for i in 0..terminals.len() {
        entries.push((net.0, terminals[i].block.0 as u16))?;
    }
    Ok(())
}

/// For each net, the block of each terminal; for a global net none.
#[tactic(auto, using(crate::proofs::Listings::listed_none, crate::proofs::Listings::listed_passed, crate::proofs::Listings::listed_all, crate::proofs::Listings::listed_few, crate::proofs::Listings::listed_within))]
fn blocks_by_net(alloc: Global, design: &Design) -> Result<Rows<u16>, AllocError>
    ensures { IfOk result (λ rows. rows ≡ counted_blocks design.now) }
{
    let mut entries = Vec::new(alloc);
    let nets = design.nets();
    'nets: for number in 0..nets {
        let net = NetId(number as u32);
        if !design.is_global(net) {
            push_blocks(&mut entries, design, net)?;
        }
    }
    gather(alloc, nets, &entries, 0)
}

/// The nets of each block of a design.
pub(crate) fn runs_of(alloc: Global, design: &Design) -> Result<Runs, AllocError>
    ensures records { IfOk result (λ runs. HasRecords runs design.now) }
    ensures terminals { IfOk result (λ runs. runs.terminals ≡ counted_blocks design.now) }
{
    let small = records_between(alloc, design, 1, SMALL)?;
    let middle = records_between(alloc, design, SMALL, MIDDLE)?;
    let wide = records_between(alloc, design, MIDDLE, WIDE)?;
    let large = large_nets(alloc, design)?;
    let rows = together(alloc, small, middle, wide, large)?;
    let terminals = blocks_by_net(alloc, design)?;
    Ok(Runs { rows, terminals })
}
