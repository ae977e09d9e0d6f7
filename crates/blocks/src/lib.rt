// Regions grown, and the squares that lie in square blocks of a region, or in blocks free of it.
#![tactic(auto)]

ghost use Rattle.std.specs.Prelude.{◌≡◌, ℕ, ◌+◌, ◌*◌, ◌^◌, ◌<◌, ◌≤◌, not, IfOk};
ghost use Rattle.scanline.specs.Bands.{covers};
ghost use Rattle.blocks.specs.Settled.{Settled, Dilated, Exactly, Corners};
ghost use Rattle.blocks.specs.Blocks.{near, in_a_block, drawn_in, free_block};

use region::regions::Region;
use std::alloc::{AllocError, Global};

// Each square, and those at most `by` to the right and `by` below it.
fn dilate(heap: Global, a: &Region, by: u64) -> Result<Region, AllocError>
    ensures { IfOk result (λ v. (m : ℕ) → m + by < 2 ^ 64 → Settled m (covers a.now.bands.items) → Dilated by (covers a.now.bands.items) (covers v.bands.items)) }
{
    let wide = a.widen_right(heap, by)?;
    wide.widen_down(heap, by)
}

// Moved to the left and up.
fn shift_back(heap: Global, a: &Region, by: u64) -> Result<Region, AllocError>
    ensures { IfOk result (λ v. (x y : ℕ) → covers v.bands.items x y ≡ covers a.now.bands.items (x + by) (y + by)) }
{
    let left = a.shift_left(heap, by)?;
    left.shift_up(heap, by)
}

// All squares no farther than `by` across and down: twice as far forward, and moved back.
pub fn grow(heap: Global, a: &Region, by: u64) -> Result<Region, AllocError>
    requires { by < 2 ^ 62 }
    ensures { IfOk result (λ v. Exactly (2 * by) (covers a.now.bands.items) (near by (covers a.now.bands.items)) (covers v.bands.items)) }
{
    let wide = dilate(heap, a, 2 * by)?;
    shift_back(heap, &wide, by)
}

// The upper left squares of the blocks of `by` + 1 squares that lie all within the region.
fn corners(heap: Global, a: &Region, by: u64) -> Result<Region, AllocError>
    ensures { IfOk result (λ v. (m : ℕ) → m + by < 2 ^ 64 → Settled m (covers a.now.bands.items) → Corners m by (covers a.now.bands.items) (covers v.bands.items)) }
{
    let outside = a.complement(heap)?;
    let reached = dilate(heap, &outside, by)?;
    let ends = reached.complement(heap)?;
    shift_back(heap, &ends, by)
}

// The squares that lie in a block of `side` by `side` squares of the region. The side is a number and a clause: with a
// `NonZeroU64` each definition would have to read the number out of it.
pub fn open(heap: Global, a: &Region, side: u64) -> Result<Region, AllocError>
    requires { 0 < side }
    ensures { IfOk result (λ v. Exactly (2 * side) (covers a.now.bands.items) (in_a_block side (covers a.now.bands.items)) (covers v.bands.items)) }
{
    let starts = corners(heap, a, side - 1)?;
    dilate(heap, &starts, side - 1)
}

// The squares around which a block of `side` by `side` squares is free of the region, also one that reaches over the
// upper and left edges: the block's last square is always there.
pub fn free(heap: Global, a: &Region, side: u64) -> Result<Region, AllocError>
    requires { 0 < side }
    ensures { IfOk result (λ v. Exactly (2 * side) (covers a.now.bands.items) (free_block side (covers a.now.bands.items)) (covers v.bands.items)) }
{
    let reached = dilate(heap, a, side - 1)?;
    let ends = reached.complement(heap)?;
    let blocks = dilate(heap, &ends, side - 1)?;
    shift_back(heap, &blocks, side - 1)
}
