// How many boxes each node has, counted from the first on and no further than past the limit.
ghost use Rattle.std.specs.Prelude.{◌≡◌, suc, ◌<◌, min};
ghost use Rattle.layout.specs.Counts.{Counted};
ghost use Rattle.layout.specs.Limits.{max_boxes};
ghost use Rattle.layout.specs.Numbers.{boxes, sixes};
ghost use Rattle.layout.specs.Pieces.{piece};

use super::limit::{MAX_BOXES, MAX_NODES};
use super::node::Node;
use super::nodes::Nodes;

/// How many boxes a node has, or one more than the limit where it has more, from the counts of those before it.
fn count_of(nodes: &Nodes<'_>, counts: &[u64], n: usize) -> u64
    requires within { n < sixes nodes.now.numbers.now }
    requires counted { Counted nodes.now.numbers.now counts.now n }
    ensures { result ≡ min (boxes (λ k. 0) (piece nodes.now.numbers.now n)) (suc max_boxes) }
{
    match nodes.node(n) {
        Node::Nothing => 0,
        Node::One(_) => 1,
        Node::Both(a, b) => (counts[a] + counts[b]).min(MAX_BOXES + 1),
        Node::Changed { of, .. } => counts[of],
        Node::Row { many, of, .. } => (many * counts[of]).min(MAX_BOXES + 1),
        Node::Column { many, of, .. } => (many * counts[of]).min(MAX_BOXES + 1),
    }
}

/// How many boxes each node has, or one more than the limit where it has more.
pub(crate) fn count_boxes(nodes: &Nodes<'_>) -> [u64; MAX_NODES]
    ensures { Counted nodes.now.numbers.now result (sixes nodes.now.numbers.now) }
{
    let mut counts = [0u64; MAX_NODES];
    for n in 0..nodes.len() {
        counts[n] = count_of(nodes, &counts, n);
    }
    counts
}
