//! Designs: what a netlist text means, in flat arrays, so that placement need not search.

use crate::names::BlockNames;
use crate::netlist_types::{BlockId, BlockKind, NetId, Terminal};
use crate::rows::Rows;
use std::marker::Model;

/// A design: blocks numbered in the order of the text, nets by first appearance.
pub struct Design {
    kinds: Vec<BlockKind>,
    names: BlockNames,
    terminals: Rows<Terminal>,
    globals: Vec<bool>,
    block_nets: Rows<NetId>,
    block_pins: Rows<u32>,
}

impl Model for Design {
    ghost use Rattle.std.specs.Prelude.{◌≡◌, length};
    ghost use Rattle.fab_net.specs.BlockNets.{block_nets as nets_by_block, block_pins as pins_by_block};
    ghost use Rattle.fab_net.specs.Netlist.{Netlist, IsLawful};
    ghost use Rattle.fab_net.specs.Shown.{netlist};

    ghost Value = { Netlist };

    ghost view = { λ a. netlist a.kinds.items a.names a.terminals a.globals.items };

    ghost invariant = { λ a.
        ((a.block_nets ≡ nets_by_block (length a.kinds.items) a.terminals a.globals.items) ×
        (a.block_pins ≡ pins_by_block (length a.kinds.items) a.terminals a.globals.items)) ×
        IsLawful (netlist a.kinds.items a.names a.terminals a.globals.items) };
}

impl Drop for Design {
    // A `drop` by hand is proved once; a derived `drop` is proved again wherever a design goes out of scope.
    fn drop(self) {
        let Design {
            kinds: _,
            names: _,
            terminals: _,
            globals: _,
            block_nets: _,
            block_pins: _,
        } = self;
    }
}

impl Design {
    ghost use Rattle.std.specs.Prelude.{◌≡◌, ◌<◌, ◌≤◌, [], Some, length, map, slice_get, slice_index_or};
    ghost use Rattle.std.specs.Option.{option_map};
    ghost use Rattle.fab_net.specs.BlockNets.{block_nets as nets_by_block, block_pins as pins_by_block, net_id};
    ghost use Rattle.fab_net.specs.Names.{number_of};
    ghost use Rattle.fab_net.specs.Netlist.{IsLawful, net_at, nets_of as nets_on_block, pin_count, logic_count, pad_count};
    ghost use Rattle.fab_net.specs.Shown.{netlist};

    /// Makes a design from its parts. Users of the crate call `read_net`.
    pub(crate) fn new(
        kinds: Vec<BlockKind>,
        names: BlockNames,
        terminals: Rows<Terminal>,
        globals: Vec<bool>,
        block_nets: Rows<NetId>,
        block_pins: Rows<u32>,
    ) -> Self
        requires nets { block_nets ≡ nets_by_block (length kinds.items) terminals globals.items }
        requires pins { block_pins ≡ pins_by_block (length kinds.items) terminals globals.items }
        requires lawful { IsLawful (netlist kinds.items names terminals globals.items) }
        ensures { result ≡ netlist kinds.items names terminals globals.items }
    {
        Design {
            kinds,
            names,
            terminals,
            globals,
            block_nets,
            block_pins,
        }
    }

    /// The number of blocks, at most 65,535. Blocks are numbered from 0.
    pub fn blocks(&self) -> usize
        ensures count { result ≡ length self.now.kinds }
        ensures lawful { IsLawful self.now }
    {
        self.kinds.len()
    }

    /// The number of nets, global ones included, at most 65,535. Nets are numbered from 0.
    pub fn nets(&self) -> usize
        ensures count { result ≡ length self.now.terminals }
        ensures lawful { IsLawful self.now }
    {
        self.terminals.len()
    }

    /// The number of logic blocks; all other blocks are pads.
    pub fn logic_blocks(&self) -> usize
        ensures { result ≡ logic_count self.now }
    {
        self.kinds
            .iter()
            .filter(|kind| **kind == BlockKind::Logic)
            .count()
    }

    /// The number of pads.
    pub fn pads(&self) -> usize
        ensures { result ≡ pad_count self.now }
    {
        self.kinds
            .iter()
            .filter(|kind| **kind != BlockKind::Logic)
            .count()
    }

    /// The kind of a block.
    pub fn kind(&self, block: BlockId) -> BlockKind
        requires { block.0 < length self.now.kinds }
        ensures { slice_get self.now.kinds block.0 ≡ Some result }
    {
        self.kinds[block.0 as usize]
    }

    /// A block's name: any bytes except separators, line feeds and `#`.
    pub fn name(&self, block: BlockId) -> &[u8]
        requires { block.0 < length self.now.kinds }
        ensures { result.now ≡ slice_index_or self.now.names block.0 [] }
    {
        self.names.name(block.0 as usize)
    }

    /// The block with the name `name`, if there is one.
    pub fn block_named(&self, name: &[u8]) -> Option<BlockId>
        ensures { option_map (λ b. b.0) result ≡ number_of name.now self.now.names }
    {
        match self.names.number_of(name) {
            Some(number) => Some(BlockId(number as u32)),
            None => None,
        }
    }

    /// A net's terminals, in the order of the text. If a block has two pins on the net, it occurs twice.
    pub fn terminals(&self, net: NetId) -> &[Terminal]
        requires { net.0 < length self.now.terminals }
        ensures { result.now ≡ slice_index_or self.now.terminals net.0 [] }
    {
        self.terminals.row(net.0 as usize)
    }

    /// Whether a net is global. Placement ignores global nets.
    pub fn is_global(&self, net: NetId) -> bool
        requires { net.0 < length self.now.terminals }
        ensures { result ≡ (net_at self.now net.0).global }
    {
        self.globals[net.0 as usize]
    }

    /// The nets of a block that are not global, each once, in ascending order.
    pub fn nets_of(&self, block: BlockId) -> &[NetId]
        requires { block.0 < length self.now.kinds }
        ensures { result.now ≡ map net_id (nets_on_block self.now block.0) }
    {
        self.block_nets.row(block.0 as usize)
    }

    /// How many pins of the block are on each net of `nets_of`, in the same order.
    pub fn pins_of(&self, block: BlockId) -> &[u32]
        requires { block.0 < length self.now.kinds }
        ensures { result.now ≡ map (pin_count self.now block.0) (nets_on_block self.now block.0) }
    {
        self.block_pins.row(block.0 as usize)
    }
}
