// Nodes read from numbers, and one of them.
ghost use Rattle.std.specs.Prelude.{◌≡◌, ◌+◌, ◌*◌, ◌<◌, ◌≤◌, true, not, length, MatchOption};
ghost use Rattle.layout.specs.Checks.{FirstLate, InOrder};
ghost use Rattle.layout.specs.Limits.{max_number};
ghost use Rattle.layout.specs.Nodes.{Read, orderly};
ghost use Rattle.layout.specs.Numbers.{all_at_most, earlier, sixes};

use super::Nodes;
use crate::limit::{MAX_NODES, MAX_NUMBER};
use crate::node::{Node, node_at};
use crate::number::first_above;
use crate::refusal::Refusal;

/// Whether a node is of no kind, or names itself or a later one.
fn is_late(numbers: &[u64], n: usize) -> bool
    requires within { 6 * n + 6 ≤ length numbers.now }
    requires small { all_at_most max_number numbers.now ≡ true }
    ensures { result ≡ not (orderly numbers.now n) }
{
    node_at(numbers, n).is_none()
}

/// The first node of no kind, or that names itself or a later one.
fn first_late(numbers: &[u64]) -> Option<usize>
    requires whole { length numbers.now ≡ 6 * sixes numbers.now }
    requires small { all_at_most max_number numbers.now ≡ true }
    ensures { MatchOption result (earlier numbers.now (sixes numbers.now) ≡ true) (FirstLate numbers.now) }
{
    (0..numbers.len() / 6).find(|n| is_late(numbers, *n))
}

impl<'a> Nodes<'a> {
    /// The nodes of a layout in numbers, or why it is turned away.
    pub fn read(numbers: &'a [u64]) -> Result<Nodes<'a>, Refusal>
        ensures { InOrder numbers.now result }
    {
        let len = numbers.len();
        if len == 0 || len > 6 * MAX_NODES || len % 6 != 0 {
            return Err(Refusal::Nodes(len));
        }
        if let Some(place) = first_above(numbers, MAX_NUMBER) {
            return Err(Refusal::Number(place));
        }
        if let Some(n) = first_late(numbers) {
            return Err(Refusal::Node(n));
        }
        Ok(Nodes { numbers })
    }

    pub fn len(&self) -> usize
        ensures { result ≡ sixes self.now.numbers.now }
    {
        self.numbers.len() / 6
    }

    /// What a node says.
    pub fn node(&self, n: usize) -> Node
        requires { n < sixes self.now.numbers.now }
        ensures { Read self.now.numbers.now n result }
    {
        match node_at(self.numbers, n) {
            Some(node) => node,
            None => unreachable(),
        }
    }
}
