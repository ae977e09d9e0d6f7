// Boxes none of which lies far out.
ghost use Rattle.std.specs.Prelude.{◌^◌};
ghost use Rattle.std.specs.List.{AllByRecursion};
ghost use Rattle.std.proofs.Props.{props};
ghost use Rattle.layout.specs.Rects.{Within};

use super::rect::Rect;

/// Boxes that end by column and row 2^40, as those of every layout do.
#[derive(Clone, Copy)]
pub struct Boxes<'a> {
    pub rects: &'a [Rect],
    ghost near: { AllByRecursion (Within (2 ^ 40)) rects.now } by { Prim.hlevel props },
}
