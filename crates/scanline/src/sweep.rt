// The sweep: spans in the order of their rows, a line moved from edge to edge.
ghost use Rattle.std.specs.Prelude.{◌≡◌, ℕ, ◌^◌, IfOk};
ghost use Rattle.std.specs.List.{AllByRecursion};
ghost use Rattle.layout.specs.Rects.{Within, covered};
ghost use Rattle.scanline.specs.Bands.{Canonical, covers};
ghost use Rattle.scanline.specs.Spans.{ByRows, any_covers};

use super::band::Band;
use super::bands::add_band;
use super::lines::Line;
use super::live::{advance, next_row};
use super::span::Span;
use super::spans::{begin_at, by_rows};
use layout::rect::Rect;
use std::alloc::{AllocError, Global};

// At each row where a span begins or ends the line changes, and a band begins.
fn sweep_spans(heap: Global, spans: &[Span]) -> Result<Vec<Band>, AllocError>
    requires { ByRows 0 spans.now }
    ensures canonical { IfOk result (λ v. Canonical v.items) }
    ensures covers { IfOk result (λ v. (x y : ℕ) → covers v.items x y ≡ any_covers spans.now x y) }
{
    let mut bands = Vec::new(heap);
    let mut live: Vec<Span> = Vec::new(heap);
    let mut rest = spans;
    while let Some(row) = next_row(live.as_slice(), rest) {
        let (new, after) = rest.split_at(begin_at(rest, row));
        live = advance(heap, live.as_slice(), new, row)?;
        rest = after;
        let line = Line::of_spans(heap, live.as_slice())?;
        add_band(&mut bands, row, line)?;
    }
    Ok(bands)
}

// The bands of the squares that the boxes of a layer cover.
pub fn sweep(heap: Global, boxes: &[Rect], layer: u64) -> Result<Vec<Band>, AllocError>
    requires { AllByRecursion (Within (2 ^ 63)) boxes.now }
    ensures canonical { IfOk result (λ v. Canonical v.items) }
    ensures covers { IfOk result (λ v. (x y : ℕ) → covers v.items x y ≡ covered boxes.now layer x y) }
{
    let spans = by_rows(heap, boxes, layer)?;
    let bands = sweep_spans(heap, spans.as_slice())?;
    Ok(bands)
}
