//! The texts that are checked if the command line names no files: one pad and three logic blocks on one net.

/// The architecture: two pads for each position, one pin for each logic block.
pub const ARCH: &[u8] = b"io_rat 2\nchan_width_io 1\ninpin class: 0 left\n";

/// The netlist: a pad drives the net that the three logic blocks read.
pub const NET: &[u8] =
    b".input a\npinlist: n\n.clb b1\npinlist: n\n.clb b2\npinlist: n\n.clb b3\npinlist: n\n";

/// The placement: the logic blocks are on the diagonal of a 3 x 3 array, the pad to the left of its middle row.
pub const PLACE: &[u8] = b"Netlist file: x.net   Architecture file: x.arch
Array size: 3 x 3 logic blocks
a 0 2 1
b1 1 1 0
b2 3 3 0
b3 2 2 0
";
