// Spans in the order of their rows.
ghost use Rattle.std.specs.Prelude.{◌≡◌, ℕ, ◌^◌, ◌<◌, ◌≤◌, length, IfOk, ◌≢◌, slice_index_or};
ghost use Rattle.std.specs.List.{AllByRecursion};
ghost use Rattle.layout.specs.Rects.{Within, covered};
ghost use Rattle.scanline.specs.Spans.{Spanned, ByRows, any_covers, Solid, no_span};

use super::span::Span;
use layout::rect::Rect;
use std::alloc::{AllocError, Global};

// The span of a box, if it is one of the layer and not empty.
fn span_of(b: Rect, layer: u64) -> Option<Span>
    requires { Within (2 ^ 63) b }
    ensures { Spanned layer b result }
{
    if (b.layer == layer) & (b.across > 0) & (b.down > 0) {
        return Some(Span {
            top: b.y,
            left: b.x,
            right: b.x + b.across,
            bottom: b.y + b.down,
        });
    }
    None
}

// The spans of the boxes of a layer. Up to 2^63, as far as sums fit: the boxes of layouts, whose type says 2^40, are
// fewer.
fn spans_of(heap: Global, boxes: &[Rect], layer: u64) -> Result<Vec<Span>, AllocError>
    requires { AllByRecursion (Within (2 ^ 63)) boxes.now }
    ensures solid { IfOk result (λ v. AllByRecursion Solid v.items) }
    ensures covers { IfOk result (λ v. (x y : ℕ) → any_covers v.items x y ≡ covered boxes.now layer x y) }
{
    let mut out = Vec::new(heap);
    for b in boxes {
        if let Some(span) = span_of(*b, layer) {
            out.push(span)?;
        }
    }
    Ok(out)
}

// The spans of the boxes of a layer, from above, and those of a row from the left.
pub fn by_rows(heap: Global, boxes: &[Rect], layer: u64) -> Result<Vec<Span>, AllocError>
    requires { AllByRecursion (Within (2 ^ 63)) boxes.now }
    ensures rows { IfOk result (λ v. ByRows 0 v.items) }
    ensures covers { IfOk result (λ v. (x y : ℕ) → any_covers v.items x y ≡ covered boxes.now layer x y) }
{
    let mut spans = spans_of(heap, boxes, layer)?;
    spans.sort_unstable();
    Ok(spans)
}

// How many of the first spans begin at a row.
pub fn begin_at(spans: &[Span], row: u64) -> usize
    ensures within { result ≤ length spans.now }
    ensures begin { (k : ℕ) → k < result → (slice_index_or spans.now k no_span).top ≡ row }
    ensures next { result < length spans.now → (slice_index_or spans.now result no_span).top ≢ row }
{
    spans
        .iter()
        .position(|span| span.top != row)
        .unwrap_or(spans.len())
}
