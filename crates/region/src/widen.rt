// Regions widened in the four directions.
ghost use Rattle.std.specs.Prelude.{IfOk};
ghost use Rattle.region.specs.Shifts.{WidenedRight, WidenedLeft, WidenedDown, WidenedUp};

use super::regions::Region;
use scanline::Op;
use std::alloc::{AllocError, Global};

impl Region {
    // Each square, and the `by` squares to the right of it.
    pub fn widen_right(&self, heap: Global, by: u64) -> Result<Region, AllocError>
        ensures { IfOk result (λ v. WidenedRight by self.now.bands.items v.bands.items) }
    {
        self.change_lines(heap, |line| line.widen(heap, by))
    }

    // Each square, and the `by` squares below it, by doubling.
    pub fn widen_down(&self, heap: Global, by: u64) -> Result<Region, AllocError>
        ensures { IfOk result (λ v. WidenedDown by self.now.bands.items v.bands.items) }
    {
        let mut out = self.shift_down(heap, 0)?;
        let mut reach = 0;
        while reach < by {
            let step = (by - reach).min(reach + 1);
            let moved = out.shift_down(heap, step)?;
            out = out.combine(heap, Op::Or, &moved)?;
            reach += step;
        }
        Ok(out)
    }

    // Each square, and the `by` squares to the left of it: widened to the right, and moved back.
    pub fn widen_left(&self, heap: Global, by: u64) -> Result<Region, AllocError>
        ensures { IfOk result (λ v. WidenedLeft by self.now.bands.items v.bands.items) }
    {
        let wide = self.widen_right(heap, by)?;
        wide.shift_left(heap, by)
    }

    // Each square, and the `by` squares above it.
    pub fn widen_up(&self, heap: Global, by: u64) -> Result<Region, AllocError>
        ensures { IfOk result (λ v. WidenedUp by self.now.bands.items v.bands.items) }
    {
        let wide = self.widen_down(heap, by)?;
        wide.shift_up(heap, by)
    }
}
