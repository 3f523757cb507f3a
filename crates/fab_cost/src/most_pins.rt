//! The most terminals that one block has on a net.

ghost use Rattle.std.specs.Prelude.{◌≡◌, ◌<◌, max, length, slice_index, slice_index_or, slice_set, IfOk};
ghost use Rattle.fab_net.specs.Netlist.{nets_of};
ghost use Rattle.fab_cost.specs.Edges.{times};
ghost use Rattle.fab_cost.specs.Runs.{AreMost, AreRaised};
ghost use Rattle.fab_cost.specs.Swapping.{blocks_of, counted_blocks};

use crate::block_nets::{count_of_nets, net_of, own_pins};
use fab_net::{BlockId, Design};
use std::alloc::{AllocError, Global};

/// Raises the number of net `i` of a block to the count of the net's terminals on the block, if it is lower.
fn raise_net(most: &mut Vec<u32>, design: &Design, block: BlockId, i: usize)
    requires block { block.0 < length design.now.kinds }
    requires within { i < length (nets_of design.now block.0) }
    requires long { length most.old.items ≡ length design.now.terminals }
    ensures { most.new.items ≡
        slice_set most.old.items (slice_index (nets_of design.now block.0) i)
        (max (slice_index_or most.old.items (slice_index (nets_of design.now block.0) i) 0)
        (times block.0
        (blocks_of design.now (slice_index (nets_of design.now block.0) i)))) }
{
    let net = net_of(design, block, i).0 as usize;
    let pins = own_pins(design, block, i);
    most[net] = most[net].max(pins);
}

/// Raises the number of each net of a block to the count of the net's terminals on the block, if it is lower.
#[tactic(auto, using(crate::proofs::Most::raised_none, crate::proofs::Most::raised_all))]
fn raise_nets(most: &mut Vec<u32>, design: &Design, block: BlockId)
    requires block { block.0 < length design.now.kinds }
    requires long { length most.old.items ≡ length design.now.terminals }
    ensures { AreRaised design.now block.0 (length (nets_of design.now block.0)) most.old.items
        most.new.items }
{
    let nets = count_of_nets(design, block);
    'nets: for i in 0..nets {
        raise_net(most, design, block, i);
    }
}

/// For each net, the most terminals that one block has on it.
pub(crate) fn most_pins(alloc: Global, design: &Design) -> Result<Vec<u32>, AllocError>
    ensures long { IfOk result (λ most. length most.items ≡ length design.now.terminals) }
    ensures most { IfOk result (λ most. AreMost most.items (counted_blocks design.now)) }
{
    let nets = design.nets();
    let blocks = design.blocks();
    let mut most = vec![in alloc; 0u32; nets]?;
    'all: for number in 0..blocks {
        raise_nets(&mut most, design, BlockId(number as u32));
    }
    Ok(most)
}
