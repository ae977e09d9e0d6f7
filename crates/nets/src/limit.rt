// The limits of technologies and spots. `Limits` of the specs has the same numbers.

/// The most layers.
pub const MAX_LAYERS: u64 = 64;

/// The most joins.
pub const MAX_JOINS: u64 = 64;

/// The most spots at a time.
pub const MAX_SPOTS: usize = 16_777_216;

/// The largest number in a spot.
pub const MAX_SPOT: u64 = 1_073_741_824;
