// Nodes of six numbers, read as what they say, and spelled.
ghost use Rattle.std.specs.Prelude.{◌≡◌, ◌+◌, ◌*◌, ◌≤◌, true, length};
ghost use Rattle.layout.specs.Limits.{max_number};
ghost use Rattle.layout.specs.Nodes.{Reads, numbers_of};
ghost use Rattle.layout.specs.Numbers.{all_at_most};

use super::change::Change;
use super::rect::Rect;

/// What a node says, the nodes that it names by their numbers.
#[derive(Clone, Copy)]
pub enum Node {
    Nothing,
    One(Rect),
    Both(usize, usize),
    Changed { by: Change, of: usize },
    Row { many: u64, far: u64, of: usize },
    Column { many: u64, far: u64, of: usize },
}

impl Node {
    /// The numbers that spell it, as the layout entries take them.
    pub fn numbers(self) -> [u64; 6]
        ensures { result ≡ numbers_of self }
    {
        match self {
            Node::Nothing => [0, 0, 0, 0, 0, 0],
            Node::One(q) => [1, q.layer, q.x, q.y, q.across, q.down],
            Node::Both(a, b) => [2, a as u64, b as u64, 0, 0, 0],
            Node::Changed { by, of } => {
                let of = of as u64;
                match by {
                    Change::Move { right, below } => [3, right, below, of, 0, 0],
                    Change::Turn { side } => [4, side, of, 0, 0, 0],
                    Change::Mirror { side } => [5, side, of, 0, 0, 0],
                }
            }
            Node::Row { many, far, of } => [6, many, far, of as u64, 0, 0],
            Node::Column { many, far, of } => [7, many, far, of as u64, 0, 0],
        }
    }
}

/// The node of this number, unless it is of no kind, or names itself or a later one.
pub(crate) fn node_at(nodes: &[u64], n: usize) -> Option<Node>
    requires within { 6 * n + 6 ≤ length nodes.now }
    requires small { all_at_most max_number nodes.now ≡ true }
    ensures { Reads nodes.now n result }
{
    let at = 6 * n;
    let a = nodes[at + 1];
    let b = nodes[at + 2];
    let c = nodes[at + 3];
    let limit = n as u64;
    match nodes[at] {
        0 => Some(Node::Nothing),
        1 => Some(Node::One(Rect {
            layer: a,
            x: b,
            y: c,
            across: nodes[at + 4],
            down: nodes[at + 5],
        })),
        2 if a < limit && b < limit => Some(Node::Both(a as usize, b as usize)),
        3 if c < limit => Some(Node::Changed {
            by: Change::Move { right: a, below: b },
            of: c as usize,
        }),
        4 if b < limit => Some(Node::Changed {
            by: Change::Turn { side: a },
            of: b as usize,
        }),
        5 if b < limit => Some(Node::Changed {
            by: Change::Mirror { side: a },
            of: b as usize,
        }),
        6 if c < limit => Some(Node::Row {
            many: a,
            far: b,
            of: c as usize,
        }),
        7 if c < limit => Some(Node::Column {
            many: a,
            far: b,
            of: c as usize,
        }),
        _ => None,
    }
}
