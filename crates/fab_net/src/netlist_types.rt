//! The small types of netlists.

use fab_text::Span;

/// The kind of a block.
#[derive(Clone, Copy, Debug, PartialEq, Eq)]
pub enum BlockKind {
    /// A pad that drives its net: `.input`.
    InputPad,
    /// A pad that reads its net: `.output`.
    OutputPad,
    /// A logic block: `.clb`.
    Logic,
}

/// The number of a block: from 0, in the order of the text.
#[derive(Clone, Copy, Debug, PartialEq, Eq)]
pub struct BlockId(pub u32);

/// The number of a net: from 0, by first appearance in a pinlist.
#[derive(Clone, Copy, Debug, PartialEq, Eq)]
pub struct NetId(pub u32);

/// A pin of a block on a net.
#[derive(Clone, Copy, Debug, PartialEq, Eq)]
pub struct Terminal {
    pub block: BlockId,
    /// Which of the block's pins, from 0.
    pub pin: u16,
}

/// What a line of a netlist does, by its first word.
#[derive(Clone, Copy, Debug, PartialEq, Eq)]
pub enum Head {
    Opens(BlockKind),
    Pinlist,
    Subblock,
    Global,
    Unknown,
}

/// A pin on a net, by numbers. `span` is the place of its net's name in the text.
#[derive(Clone, Copy, Debug, PartialEq, Eq)]
pub struct Pin {
    pub block: u32,
    pub pin: u16,
    pub net: u32,
    pub drives: bool,
    pub span: Span,
}
