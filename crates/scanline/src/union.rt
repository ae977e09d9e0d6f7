// The line of all columns of spans in the order of their columns.
ghost use Rattle.std.specs.Prelude.{◌≡◌, ℕ, IfOk};
ghost use Rattle.scanline.specs.Lines.{inside};
ghost use Rattle.scanline.specs.Spans.{ByColumns, any_across};

use super::lines::Line;
use super::span::Span;
use std::alloc::{AllocError, Global};

impl Line {
    // Overlapping and touching columns become one interval, from `from` up to `to`; it is written once a gap follows.
    // `ByColumns` stays a clause: the sweep splits and joins such slices, and no value is passed that could carry it.
    pub fn of_spans(heap: Global, spans: &[Span]) -> Result<Line, AllocError>
        requires { ByColumns 0 spans.now }
        ensures { IfOk result (λ v. (x : ℕ) → inside v.edges.items x ≡ any_across spans.now x) }
    {
        let [first, rest @ ..] = spans else {
            return Ok(Line::empty(heap));
        };
        let mut edges = Vec::new(heap);
        let mut from = first.left;
        let mut to = first.right;
        for span in rest {
            if to < span.left {
                edges.extend_from_slice(&[from, to])?;
                from = span.left;
                to = span.right;
            } else {
                to = to.max(span.right);
            }
        }
        edges.extend_from_slice(&[from, to])?;
        Ok(Line { edges })
    }
}
