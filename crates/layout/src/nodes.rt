// A layout's nodes, once they are in order.
ghost use Rattle.layout.specs.Pieces.{Sound};

pub mod read;

/// Nodes of six numbers, each of a kind and naming earlier ones only.
#[derive(Clone, Copy)]
pub struct Nodes<'a> {
    numbers: &'a [u64],
    ghost sound: { Sound numbers.now },
}
