//! What placement needs to know of an architecture.

ghost use Rattle.std.specs.Prelude.{◌<◌, ◌≤◌, length};

/// What a pin of a logic block does with its net.
#[derive(Clone, Copy, Debug, PartialEq, Eq)]
pub enum PinKind {
    /// It reads the net: `inpin`.
    Reads,
    /// It drives the net: `outpin`.
    Drives,
}

/// An architecture.
#[derive(Drop)]
pub struct Arch {
    /// How many pads each position at the edge of the array has, 1 to 64.
    pub io_rat: u16,
    /// The pins of a logic block, in order, 1 to 1,024 of them.
    pub pins: Vec<PinKind>,
    ghost ratio: { (1 ≤ io_rat) × (io_rat ≤ 64) },
    ghost count: { (0 < length pins.items) × (length pins.items ≤ 1024) },
}
