// A circuit as a text says it.
use words::name::Names;

/// The pins of a circuit: its first nets.
#[derive(Clone, Copy)]
pub struct Pins {
    pub many: usize,
    /// The line on which they are named.
    pub line: usize,
}

/// Nets by name in the order in which they are named, the pins first, and devices in threes, the gate first.
#[derive(Drop)]
pub struct CircuitText {
    pub names: Names,
    pub pins: Option<Pins>,
    // Flat, as the comparison of circuits takes them.
    pub devices: Vec<u64>,
}
