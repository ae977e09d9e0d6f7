// The limits of a layout. `Limits` of the specs has the same numbers.

/// The most nodes.
pub const MAX_NODES: usize = 256;

/// The largest number in a node.
pub const MAX_NUMBER: u64 = 65_535;

/// The most boxes when a layout is written out.
pub const MAX_BOXES: u64 = 1024;
