// Channels and wire of the crossed layer.
ghost use Rattle.std.specs.Prelude.{IfOk};
ghost use Rattle.layout.specs.Rects.{covered};
ghost use Rattle.nets.specs.Processes.{technology_of};
ghost use Rattle.devices.specs.Crossings.{Crossed};

use crate::channel::channel_region;
use crate::piece::Pieces;
use nets::mask::Mask;
use region::regions::Region;
use std::alloc::{AllocError, Global};

/// Channels and wire of the crossed layer, as regions and in groups of tiles.
#[derive(Drop)]
pub struct Crossing {
    pub layer: u64,
    pub channel: Region,
    pub wire: Region,
    pub channels: Pieces,
    pub wires: Pieces,
}

impl Crossing {
    // The channels and the wire of the crossed layer.
    pub fn lay(heap: Global, mask: &Mask<'_, '_>) -> Result<Crossing, AllocError>
        ensures { IfOk result (λ c. Crossed (technology_of mask.now.process.now) (covered mask.now.boxes.rects.now) c) }
    {
        let layer = mask.process.crossed;
        let channel = channel_region(heap, mask)?;
        let wire = mask.wire_region(heap, layer)?;
        let channels = Pieces::of_region(heap, layer, &channel)?;
        let wires = Pieces::of_wire(heap, mask)?;
        Ok(Crossing {
            layer,
            channel,
            wire,
            channels,
            wires,
        })
    }
}
