// A layout written out as the boxes that it draws.
ghost use Rattle.std.specs.Prelude.{◌≡◌, ℕ, ◌^◌, ◌<◌, ◌≤◌, ◌++◌, IfOk, vec_len, OnOk};
ghost use Rattle.std.specs.List.{AllByRecursion};
ghost use Rattle.layout.specs.Limits.{max_boxes};
ghost use Rattle.layout.specs.Numbers.{layout_in, sixes};
ghost use Rattle.layout.specs.Pieces.{piece};
ghost use Rattle.layout.specs.Rects.{Within, covered, rects};
ghost use Rattle.layout.specs.Written.{Written};

use super::change::{change_tail, copy_tail};
use super::layout::Layout;
use super::node::Node;
use super::rect::Rect;
use super::refusal::Fault;
use std::alloc::{AllocError, Global};

impl<'a> Layout<'a> {
    /// Adds the boxes of a node. One without boxes is passed over, so that each call adds some.
    pub(crate) fn put(&self, out: &mut Vec<Rect>, n: usize) -> Result<(), AllocError>
        requires { n < sixes self.now.nodes.numbers.now }
        ensures { OnOk result (out.new.items ≡ out.old.items ++ rects (piece self.now.nodes.numbers.now n)) }
    {
        if self.counts[n] == 0 {
            return Ok(());
        }
        let start = out.len();
        match self.nodes.node(n) {
            Node::Nothing => Ok(()),
            Node::One(q) => {
                out.push(q)?;
                Ok(())
            }
            Node::Both(a, b) => {
                self.put(out, a)?;
                self.put(out, b)
            }
            Node::Changed { by, of } => {
                self.put(out, of)?;
                change_tail(out, start, by);
                Ok(())
            }
            Node::Row { many, far, of } => {
                self.put(out, of)?;
                copy_tail(out, start, many, far, 0)
            }
            Node::Column { many, far, of } => {
                self.put(out, of)?;
                copy_tail(out, start, many, 0, far)
            }
        }
    }

    /// Its boxes.
    pub fn boxes(&self, heap: Global) -> Result<Vec<Rect>, AllocError>
        ensures draws { IfOk result (λ v. (l x y : ℕ) → covered v.items l x y ≡ layout_in self.now.nodes.numbers.now l x y) }
        ensures few { IfOk result (λ v. vec_len v ≤ max_boxes) }
        ensures near { IfOk result (λ v. AllByRecursion (Within (2 ^ 40)) v.items) }
    {
        let mut out = Vec::new(heap);
        self.put(&mut out, self.nodes.len() - 1)?;
        Ok(out)
    }
}

/// The boxes of a layout.
pub fn layout_boxes(heap: Global, nodes: &[u64]) -> Result<Vec<Rect>, Fault>
    ensures { Written nodes.now result }
{
    let layout = Layout::read(nodes)?;
    let boxes = layout.boxes(heap)?;
    Ok(boxes)
}
