// Which nodes get a cell of their own.
ghost use Rattle.std.specs.Prelude.{◌≡◌, ℕ, ◌≤◌};
ghost use Rattle.layout.specs.Nodes.{Spelled};
ghost use Rattle.layout_writer.specs.Cells.{once, uses, has_cell};

use layout::node::Node;
use layout::nodes::Nodes;

fn once(a: usize, m: usize) -> u64
    ensures same { result ≡ once a m }
    ensures few { result ≤ 1 }
{
    u64::from(a == m)
}

/// How often a node stands on another: twice where it has to name it.
fn uses(node: Node, m: usize) -> u64
    ensures same { (k a b c e f : ℕ) → Spelled k a b c e f node → result ≡ uses k a b c m }
    ensures few { result ≤ 2 }
{
    match node {
        Node::Nothing | Node::One(_) => 0,
        Node::Both(a, b) => once(a, m) + once(b, m),
        Node::Changed { of, .. } | Node::Row { of, .. } | Node::Column { of, .. } => {
            2 * once(of, m)
        }
    }
}

/// Whether a node gets a cell: it is named, or stands in two places.
pub(crate) fn has_cell(nodes: &Nodes<'_>, m: usize) -> bool
    ensures { result ≡ has_cell nodes.now.numbers.now m }
{
    let mut total = 0;
    for n in 0..nodes.len() {
        total += uses(nodes.node(n), m);
    }
    total >= 2
}
