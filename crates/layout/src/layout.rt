// A layout that is taken: its nodes are in order, and it has few boxes.
ghost use Rattle.std.specs.Prelude.{◌≡◌};
ghost use Rattle.layout.specs.Counts.{Counted};
ghost use Rattle.layout.specs.Numbers.{layout_refusal, sixes};

use super::limit::MAX_NODES;
use super::nodes::Nodes;

pub mod read;

/// Nodes in order, and how many boxes each has; the last, which is the layout, has few.
#[derive(Clone, Copy)]
pub struct Layout<'a> {
    pub(crate) nodes: Nodes<'a>,
    pub(crate) counts: [u64; MAX_NODES],
    ghost taken: { layout_refusal nodes.numbers.now ≡ 0 },
    ghost counted: { Counted nodes.numbers.now counts (sixes nodes.numbers.now) },
}
