// Wire: what is covered of a carrying layer, but on the crossed layer not under a gate.
ghost use Rattle.std.specs.Prelude.{IfOk};
ghost use Rattle.layout.specs.Rects.{covered};
ghost use Rattle.nets.specs.Nets.{wire};
ghost use Rattle.nets.specs.Processes.{technology_of};
ghost use Rattle.nets.specs.Wires.{Shows, Tiled};

use crate::mask::Mask;
use region::regions::Region;
use scanline::Op;
use std::alloc::{AllocError, Global};
use tiles::cut::add_region;
use tiles::tile::Tile;

impl<'b, 'p> Mask<'b, 'p> {
    /// The wire of a layer.
    pub fn wire_region(&self, heap: Global, layer: u64) -> Result<Region, AllocError>
        ensures { IfOk result (λ v. Shows v.bands.items (wire (technology_of self.now.process.now) (covered self.now.boxes.rects.now) layer)) }
    {
        if !self.process.carries(layer) {
            return Ok(Region::empty(heap));
        }
        let region = Region::from_boxes(heap, self.boxes.rects, layer)?;
        if layer != self.process.crossed {
            return Ok(region);
        }
        let gates = Region::from_boxes(heap, self.boxes.rects, self.process.gate)?;
        region.combine(heap, Op::Without, &gates)
    }

    /// The wire of all layers, in tiles.
    pub fn wire_tiles(&self, heap: Global) -> Result<Vec<Tile>, AllocError>
        ensures { IfOk result (λ v. Tiled (wire (technology_of self.now.process.now) (covered self.now.boxes.rects.now)) v.items) }
    {
        let mut tiles = Vec::new(heap);
        for layer in 0..self.process.carries.len() as u64 {
            let region = self.wire_region(heap, layer)?;
            add_region(&mut tiles, layer, &region)?;
        }
        Ok(tiles)
    }
}
