//! The nets with many terminals of a swap's two blocks. They are kept beside what is foreseen of a move, so that their stamps can be looked
//! up without reading a large design.

ghost use Rattle.std.specs.Prelude.{◌≡◌, ℕ, ◌<◌, ◌≤◌, ◌∷◌, [], false, true, length, slice_index, take, Some};
ghost use Rattle.fab_net.specs.declared.netlist_types.BlockId.{BlockId as Block};
ghost use Rattle.fab_cost.specs.Swapping.{IsMadeFor};
ghost use Rattle.fab_move.specs.KeptNets.{AreAppended, AreKept, large_among, large_nets, nets_at, nets_on};

use fab_cost::EdgeBoxes;
use fab_net::{BlockId, Design, NetId};
use fab_site::Swap;

/// The most nets that are kept of a swap.
const MOST: usize = 5;

/// The nets with many terminals of a swap's block, followed by those of the block that it displaces.
#[derive(Clone, Copy)]
pub struct LargeNets {
    /// The nets, at most 5.
    pub nets: [NetId; MOST],
    /// How many nets there are.
    pub all: u8,
    /// Whether they are here. If not, they are looked up in the design.
    pub is_kept: bool,
}

impl LargeNets {
    /// No nets are kept.
    #[inline(always)]
    pub fn none() -> LargeNets
        ensures { result.is_kept ≡ false }
    {
        LargeNets {
            nets: [NetId(0); MOST],
            all: 0,
            is_kept: false,
        }
    }

    /// The nets of a swap, if there are at most 5.
    #[tactic(auto, using(crate::proofs::KeptLists::kept_both, crate::proofs::KeptLists::kept_own, crate::proofs::KeptLists::few_of_both, crate::proofs::KeptLists::few_of_own))]
    pub fn of(design: &Design, cost: &EdgeBoxes, swap: Swap) -> LargeNets
        requires made { IsMadeFor cost.now design.now }
        requires block { swap.block.0 < length design.now.kinds }
        requires other { (b : Block) → swap.other ≡ Some b → b.0 < length design.now.kinds }
        ensures list { AreKept design.now swap result }
        ensures kept { length (large_nets design.now swap) ≤ 5 → result.is_kept ≡ true }
    {
        let mut kept = LargeNets {
            nets: [NetId(0); MOST],
            all: 0,
            is_kept: true,
        };
        append_large(&mut kept, design, cost, swap.block);
        if let Some(other) = swap.other {
            append_large(&mut kept, design, cost, other);
        }
        kept
    }

    /// The nets that are kept.
    #[inline(always)]
    pub fn list(&self) -> &[NetId]
        requires { self.now.all ≤ 5 }
        ensures { result.now ≡ take self.now.all self.now.nets }
    {
        &self.nets[..self.all as usize]
    }
}

/// Adds a net after the others. If there is no room, no nets are kept from then on.
fn push(kept: &mut LargeNets, net: NetId)
    requires { kept.old.all ≤ 5 }
    ensures { AreAppended kept.old kept.new (net ∷ []) }
{
    let place = kept.all as usize;
    if place < MOST {
        kept.nets[place] = net;
        kept.all += 1;
    } else {
        kept.is_kept = false;
    }
}

/// Adds the nets with many terminals of a block.
#[inline(always)]
fn append_large(kept: &mut LargeNets, design: &Design, cost: &EdgeBoxes, block: BlockId)
    requires few { kept.old.all ≤ 5 }
    requires made { IsMadeFor cost.now design.now }
    requires block { block.0 < length design.now.kinds }
    ensures { AreAppended kept.old kept.new
        (large_among design.now (nets_on design.now (Some block))) }
{
    append_at(
        kept,
        design.nets_of(block),
        cost.large_places(design, block),
    );
}

/// Adds those of `nets` that stand at `places`.
#[inline(always)]
fn append_at(kept: &mut LargeNets, nets: &[NetId], places: &[u32])
    requires few { kept.old.all ≤ 5 }
    requires within { (k : ℕ) → k < length places.now →
        slice_index places.now k < length nets.now }
    ensures { AreAppended kept.old kept.new (nets_at nets.now places.now) }
{
    for place in places {
        push(kept, nets[*place as usize]);
    }
}
