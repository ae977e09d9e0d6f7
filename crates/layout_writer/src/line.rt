// Statements written as lines of a layout text.
ghost use Rattle.std.specs.Prelude.{◌≡◌, IfOk, codes, string_bytes};
ghost use Rattle.layout_writer.specs.Lines.{line_of, box_words, change_words, copies_words, put_here, open_words};

use layout::change::Change;
use layout::rect::Rect;
use std::alloc::{AllocError, Global};

/// The line of a box.
pub(crate) fn box_line(heap: Global, rect: Rect) -> Result<String, AllocError>
    ensures { IfOk result (λ s. string_bytes s ≡ line_of (box_words rect.layer rect.x rect.y rect.across rect.down)) }
{
    let Rect {
        layer,
        x,
        y,
        across,
        down,
    } = rect;
    format!(in heap; "box {layer} {x} {y} {across} {down}\n")
}

/// The line of a node that is changed. A turn follows a put that doesn't move.
pub(crate) fn change_line(heap: Global, by: Change, of: usize) -> Result<String, AllocError>
    ensures { IfOk result (λ s. string_bytes s ≡ line_of (change_words by of)) }
{
    match by {
        Change::Move { right, below } => format!(in heap; "put n{of} at {right} {below}\n"),
        Change::Turn { side } => format!(in heap; "put n{of} at 0 0 turned {side}\n"),
        Change::Mirror { side } => format!(in heap; "put n{of} at 0 0 mirrored {side}\n"),
    }
}

/// The line of copies of a node: a row of them, or a column.
pub(crate) fn copies_line(
    heap: Global,
    word: &str,
    many: u64,
    far: u64,
    of: usize,
) -> Result<String, AllocError>
    ensures { IfOk result (λ s. string_bytes s ≡ line_of (copies_words word.now many far of)) }
{
    format!(in heap; "{word} {many} {far} n{of}\n")
}

/// The line that puts the cell of a node where it is.
pub(crate) fn put_line(heap: Global, n: usize) -> Result<String, AllocError>
    ensures { IfOk result (λ s. string_bytes s ≡ line_of (put_here n)) }
{
    format!(in heap; "put n{n} at 0 0\n")
}

/// The line that begins the cell of a node.
pub(crate) fn open_line(heap: Global, n: usize) -> Result<String, AllocError>
    ensures { IfOk result (λ s. string_bytes s ≡ line_of (open_words n)) }
{
    format!(in heap; "cell n{n} {{\n")
}
