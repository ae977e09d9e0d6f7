// The squares that break a rule, as a region.
ghost use Rattle.std.specs.Prelude.{◌≡◌, ℕ, ◌*◌, ◌^◌, ◌<◌, not, ◌&&◌, IfOk};
ghost use Rattle.scanline.specs.Bands.{covers};
ghost use Rattle.blocks.specs.Settled.{Exactly};
ghost use Rattle.blocks.specs.Blocks.{in_a_block, free_block};
ghost use Rattle.rules.specs.Rules.{surrounded};

use blocks::{free, grow, open};
use region::regions::Region;
use scanline::Op;
use std::alloc::{AllocError, Global};

// The squares of a region around which no block of `side` by `side` lies within it.
pub fn narrow(heap: Global, a: &Region, side: u64) -> Result<Region, AllocError>
    requires { 0 < side }
    ensures { IfOk result (λ v. Exactly (2 * side) (covers a.now.bands.items) (λ x y. covers a.now.bands.items x y && not (in_a_block side (covers a.now.bands.items) x y)) (covers v.bands.items)) }
{
    let blocks = open(heap, a, side)?;
    a.combine(heap, Op::Without, &blocks)
}

// The squares outside a region around which no block of `side` by `side` is free of it.
pub fn close(heap: Global, a: &Region, side: u64) -> Result<Region, AllocError>
    requires { 0 < side }
    ensures { IfOk result (λ v. Exactly (2 * side) (covers a.now.bands.items) (λ x y. not (covers a.now.bands.items x y) && not (free_block side (covers a.now.bands.items) x y)) (covers v.bands.items)) }
{
    let blocks = free(heap, a, side)?;
    let outside = a.complement(heap)?;
    outside.combine(heap, Op::Without, &blocks)
}

// The squares of a region not all of whose neighbours, as far as `by`, are there and in another.
pub fn shallow(heap: Global, a: &Region, b: &Region, by: u64) -> Result<Region, AllocError>
    requires { by < 2 ^ 62 }
    ensures { IfOk result (λ v. Exactly (2 * by) (covers b.now.bands.items) (λ x y. covers a.now.bands.items x y && not (surrounded by (covers b.now.bands.items) x y)) (covers v.bands.items)) }
{
    let outside = b.complement(heap)?;
    let near = grow(heap, &outside, by)?;
    let inner = Region::quadrant(heap, by, by)?;
    let safe = inner.combine(heap, Op::Without, &near)?;
    a.combine(heap, Op::Without, &safe)
}
