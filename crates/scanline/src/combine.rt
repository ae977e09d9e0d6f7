// Two lines combined, from edge to edge of either.
ghost use Rattle.std.specs.Prelude.{IfOk};
ghost use Rattle.scanline.specs.Lines.{Combined};

use super::Op;
use super::lines::Line;
use super::starts::{begins, first_start, pass};
use std::alloc::{AllocError, Global};

impl Line {
    pub fn combine(&self, heap: Global, op: Op, other: &Line) -> Result<Line, AllocError>
        ensures { IfOk result (λ v. Combined op self.now.edges.items other.now.edges.items v.edges.items) }
    {
        let mut a = self.edges();
        let mut b = other.edges();
        let mut edges = Vec::with_capacity(heap, a.len().saturating_add(b.len()))?;
        let mut in_a = false;
        let mut in_b = false;
        let mut within = false;
        while let Some(edge) = first_start(a, b) {
            in_a = in_a != begins(a, edge);
            in_b = in_b != begins(b, edge);
            a = pass(a, edge).1;
            b = pass(b, edge).1;
            let next = op.apply(in_a, in_b);
            if next != within {
                edges.push(edge)?;
                within = next;
            }
        }
        Ok(Line { edges })
    }
}
