// Changes of many boxes in place: each by itself, or copied.
ghost use Rattle.std.specs.Prelude.{◌≡◌, ◌*◌, ◌^◌, ◌<◌, ◌≤◌, ◌++◌, map, take, drop, vec_len, OnOk};
ghost use Rattle.std.specs.List.{AllByRecursion};
ghost use Rattle.layout.specs.Changes.{Mild, change_rect};
ghost use Rattle.layout.specs.Rects.{Within, move_rect, copies};

use super::rect::Rect;
use std::alloc::AllocError;

/// A way to change boxes, each by itself.
#[derive(Clone, Copy)]
pub enum Change {
    Move { right: u64, below: u64 },
    Turn { side: u64 },
    Mirror { side: u64 },
}

// How far a box reaches grows from node to node, so no type can say it: each change asks for room of its own.
impl Rect {
    fn changed(self, by: Change) -> Rect
        requires within { Within (2 ^ 48) self }
        requires mild { Mild by }
        ensures { result ≡ change_rect by self }
    {
        match by {
            Change::Move { right, below } => self.moved(right, below),
            Change::Turn { side } => self.turned(side),
            Change::Mirror { side } => self.mirrored(side),
        }
    }
}

fn change_all(rects: &mut [Rect], by: Change)
    requires within { AllByRecursion (Within (2 ^ 48)) rects.old }
    requires mild { Mild by }
    ensures { rects.new ≡ map (change_rect by) rects.old }
{
    for q in rects.iter_mut() {
        *q = q.changed(by);
    }
}

/// Changes the boxes from a place on.
pub(crate) fn change_tail(out: &mut Vec<Rect>, start: usize, by: Change)
    requires start { start ≤ vec_len out.old }
    requires within { AllByRecursion (Within (2 ^ 48)) (drop start out.old.items) }
    requires mild { Mild by }
    ensures { out.new.items ≡ take start out.old.items ++ map (change_rect by) (drop start out.old.items) }
{
    change_all(&mut out.as_mut_slice()[start..], by);
}

/// Makes so many of the boxes from a place on, each so far from the ones before.
pub(crate) fn copy_tail(
    out: &mut Vec<Rect>,
    start: usize,
    many: u64,
    right: u64,
    below: u64,
) -> Result<(), AllocError>
    requires start { start ≤ vec_len out.old }
    requires some { 0 < many }
    requires within { AllByRecursion (Within (2 ^ 48)) (drop start out.old.items) }
    requires mild { (many * right ≤ 2 ^ 48) × (many * below ≤ 2 ^ 48) }
    ensures { OnOk result (out.new.items ≡ take start out.old.items ++ copies many right below (drop start out.old.items)) }
{
    let end = out.len();
    for k in 1..many {
        let at = out.len();
        out.extend_from_within(start..end)?;
        let by = Change::Move {
            right: k * right,
            below: k * below,
        };
        change_tail(out, at, by);
    }
    Ok(())
}
