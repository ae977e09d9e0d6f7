// Channels: what lies under a gate.
ghost use Rattle.std.specs.Prelude.{IfOk};
ghost use Rattle.layout.specs.Rects.{covered};
ghost use Rattle.nets.specs.Processes.{technology_of};
ghost use Rattle.nets.specs.Wires.{Shows};
ghost use Rattle.devices.specs.Pieces.{gated};

use nets::mask::Mask;
use region::regions::Region;
use scanline::Op;
use std::alloc::{AllocError, Global};

// Where the gate's layer and the crossed one are both covered.
pub fn channel_region(heap: Global, mask: &Mask<'_, '_>) -> Result<Region, AllocError>
    ensures { IfOk result (λ v. Shows v.bands.items (gated (technology_of mask.now.process.now) (covered mask.now.boxes.rects.now))) }
{
    let crossed = Region::from_boxes(heap, mask.boxes.rects, mask.process.crossed)?;
    let gates = Region::from_boxes(heap, mask.boxes.rects, mask.process.gate)?;
    let both = crossed.combine(heap, Op::And, &gates)?;
    Ok(both)
}
