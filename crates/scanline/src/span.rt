// The rows and columns of a box, in the order of rows and then of columns.
use layout::rect::Rect;

// The columns from `left` up to `right`, in the rows from `top` up to `bottom`.
#[derive(Clone, Copy, PartialEq, Eq, PartialOrd, Ord)]
pub struct Span {
    pub top: u64,
    pub left: u64,
    pub right: u64,
    pub bottom: u64,
}
