// A mask: boxes, and the process by which they are wire.
use crate::process::Process;
use layout::boxes::Boxes;

/// Boxes with the process that says what carries and what joins.
#[derive(Clone, Copy)]
pub struct Mask<'b, 'p> {
    pub boxes: Boxes<'b>,
    pub process: &'p Process,
}
