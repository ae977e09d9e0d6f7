// The spans that a row crosses, in the order of their columns.
ghost use Rattle.std.specs.Prelude.{◌≡◌, ℕ, ◌<◌, ◌≤◌, true, IfOk, OnOk};
ghost use Rattle.scanline.specs.Spans.{ByColumns, Picked, Hidden, Kept, Advanced, least_end, next_edge};

use super::span::Span;
use std::alloc::{AllocError, Global};

// The leftmost of the first spans of two lists, and what is left of both.
fn leftmost<'a>(live: &'a [Span], new: &'a [Span]) -> Option<(Span, &'a [Span], &'a [Span])>
    ensures { Picked live.now new.now result }
{
    match (live, new) {
        ([], []) => None,
        ([s, rest @ ..], []) => Some((*s, rest, new)),
        ([], [t, rest @ ..]) => Some((*t, live, rest)),
        ([s, rest_live @ ..], [t, rest_new @ ..]) => {
            if s.left <= t.left {
                Some((*s, rest_live, new))
            } else {
                Some((*t, live, rest_new))
            }
        }
    }
}

// Whether the last span has all columns of another, and ends no earlier: then the other never shows.
fn hidden(spans: &[Span], span: Span) -> bool
    ensures { result ≡ true → Hidden spans.now span }
{
    match spans {
        [.., last] => {
            (last.left <= span.left) & (span.right <= last.right) & (span.bottom <= last.bottom)
        }
        [] => false,
    }
}

// One span more, unless it has ended by the row or is hidden.
fn keep(spans: &mut Vec<Span>, row: u64, span: Span) -> Result<(), AllocError>
    ensures { OnOk result (Kept row span spans.old.items spans.new.items) }
{
    if span.bottom <= row {
        return Ok(());
    }
    if hidden(spans.as_slice(), span) {
        return Ok(());
    }
    spans.push(span)?;
    Ok(())
}

// The spans of both lists that go on past the row.
pub fn advance<'a>(
    heap: Global,
    live: &'a [Span],
    new: &'a [Span],
    row: u64,
) -> Result<Vec<Span>, AllocError>
    requires live { ByColumns 0 live.now }
    requires new { ByColumns 0 new.now }
    ensures { IfOk result (λ v. Advanced row live.now new.now v.items) }
{
    let mut out = Vec::new(heap);
    let mut live = live;
    let mut new = new;
    while let Some((span, rest_live, rest_new)) = leftmost(live, new) {
        live = rest_live;
        new = rest_new;
        keep(&mut out, row, span)?;
    }
    Ok(out)
}

// The first of a row and those at which the spans end.
fn first_end(row: u64, spans: &[Span]) -> u64
    ensures { result ≡ least_end row spans.now }
{
    spans.iter().fold(row, |first, span| first.min(span.bottom))
}

// The next row at which a span that has begun ends, or another begins.
pub fn next_row(live: &[Span], rest: &[Span]) -> Option<u64>
    ensures { result ≡ next_edge live.now rest.now }
{
    match (live, rest) {
        ([], []) => None,
        ([], [t, ..]) => Some(t.top),
        ([s, ..], []) => Some(first_end(s.bottom, live)),
        ([_, ..], [t, ..]) => Some(first_end(t.top, live)),
    }
}
