//! Whether an accepted swap touched a verdict's footprint. Part of the model: no run executes it.

ghost use Rattle.std.specs.Prelude.{◌≡◌, ◌<◌, ◌==◌, length};
ghost use Rattle.std.specs.List.{All, list_any};
ghost use Rattle.fab_net.specs.Netlist.{Netlist};
ghost use Rattle.fab_move.specs.Judge.{block_marks, has_mark, meet, other_marks, touched};
ghost use Rattle.fab_commit.specs.Model.World.{clash};
ghost use Rattle.fab_move.specs.StampTables.{IsBlock};
ghost use Rattle.fab_commit.specs.Model.Worlds.{HasBlocks};

use crate::run::swaps::Accepted;
use fab_move::Mark;
use fab_net::{BlockId, Design, NetId};
use fab_site::Swap;

/// Whether a swap accepted by move `base` or a later one touched one of the marks.
pub(crate) fn clash(design: &Design, accepted: &[Accepted], base: u64, marks: &[Mark]) -> bool
    requires { All (HasBlocks design.now) accepted.now }
    ensures { result ≡ clash design.now accepted.now base marks.now }
{
    for entry in accepted {
        if base <= entry.number && touches(design, &entry.swap, marks) {
            return true;
        }
    }
    false
}

/// Whether a swap touches one of the marks.
fn touches(design: &Design, swap: &Swap, marks: &[Mark]) -> bool
    requires block { swap.now.block.0 < length design.now.kinds }
    requires other { IsBlock design.now swap.now.other }
    ensures { result ≡ meet (touched design.now swap.now) marks.now }
{
    for mark in marks {
        if is_touched(design, swap, *mark) {
            return true;
        }
    }
    false
}

/// Whether a swap touches a mark.
fn is_touched(design: &Design, swap: &Swap, mark: Mark) -> bool
    requires block { swap.now.block.0 < length design.now.kinds }
    requires other { IsBlock design.now swap.now.other }
    ensures { result ≡ has_mark mark (touched design.now swap.now) }
{
    if mark == Mark::Place(swap.from) || mark == Mark::Place(swap.to) {
        return true;
    }
    if is_of_block(design, swap.block, mark) {
        return true;
    }
    match swap.other {
        Some(other) => is_of_block(design, other, mark),
        None => false,
    }
}

/// Whether a mark is a block or one of its nets.
fn is_of_block(design: &Design, block: BlockId, mark: Mark) -> bool
    requires { block.0 < length design.now.kinds }
    ensures { result ≡ has_mark mark (block_marks design.now block) }
{
    match mark {
        Mark::Block(other) => other.0 == block.0,
        Mark::Place(_) => false,
        Mark::Net(net) => has_net(design.nets_of(block), net),
    }
}

fn has_net(nets: &[NetId], net: NetId) -> bool
    ensures { result ≡ list_any (λ (n : NetId). net.0 == n.0) nets.now }
{
    nets.iter().any(|n| net.0 == n.0)
}
