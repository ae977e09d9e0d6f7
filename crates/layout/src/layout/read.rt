// Layouts read from numbers, and how many boxes they have.
ghost use Rattle.std.specs.Prelude.{◌≡◌, ℕ, ◌+◌, ◌≤◌};
ghost use Rattle.layout.specs.Checks.{Taken};
ghost use Rattle.layout.specs.Limits.{max_boxes};
ghost use Rattle.layout.specs.Numbers.{boxes, sixes};
ghost use Rattle.layout.specs.Pieces.{piece};

use super::Layout;
use crate::count::count_boxes;
use crate::limit::MAX_BOXES;
use crate::nodes::Nodes;
use crate::refusal::Refusal;

impl<'a> Layout<'a> {
    /// The layout of numbers, or why it is turned away.
    pub fn read(numbers: &'a [u64]) -> Result<Layout<'a>, Refusal>
        ensures { Taken numbers.now result }
    {
        let nodes = Nodes::read(numbers)?;
        let counts = count_boxes(&nodes);
        let last = nodes.len() - 1;
        if counts[last] > MAX_BOXES {
            return Err(Refusal::Boxes(last));
        }
        Ok(Layout { nodes, counts })
    }

    /// How many boxes it has written out.
    pub fn count(&self) -> u64
        ensures few { result ≤ max_boxes }
        ensures same { (p : ℕ) → p + 1 ≡ sixes self.now.nodes.numbers.now → result ≡ boxes (λ k. 0) (piece self.now.nodes.numbers.now p) }
    {
        self.counts[self.nodes.len() - 1]
    }
}
