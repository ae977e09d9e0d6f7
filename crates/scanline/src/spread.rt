// Lines widened to the right.
ghost use Rattle.std.specs.Prelude.{◌≡◌, IfOk};
ghost use Rattle.scanline.specs.Lines.{Widened, reached};

use super::lines::Line;
use std::alloc::{AllocError, Global};

// Whether the first edge is at `end` or before.
fn reaches(edges: &[u64], end: u64) -> bool
    ensures { result ≡ reached end edges.now }
{
    match edges {
        [first, ..] => *first <= end,
        [] => false,
    }
}

impl Line {
    // Each interval ends `by` later, or never where no u64 names that place, and those that then meet are one.
    pub fn widen(&self, heap: Global, by: u64) -> Result<Line, AllocError>
        ensures { IfOk result (λ v. Widened by self.now.edges.items v.edges.items) }
    {
        let mut edges = Vec::with_capacity(heap, self.edges.len())?;
        let mut rest = self.edges();
        let mut within = false;
        while let [first, after @ ..] = rest {
            if !within {
                edges.push(*first)?;
                within = true;
                rest = after;
                continue;
            }
            let Some(end) = first.checked_add(by) else {
                return Ok(Line { edges });
            };
            if reaches(after, end) {
                rest = &after[1..];
            } else {
                edges.push(end)?;
                within = false;
                rest = after;
            }
        }
        Ok(Line { edges })
    }
}
