// Layers swept once each, and looked up.
ghost use Rattle.std.specs.Prelude.{◌≡◌, ℕ, IfOk};
ghost use Rattle.layout.specs.Rects.{covered};
ghost use Rattle.scanline.specs.Bands.{covers};
ghost use Rattle.rules.specs.Layers.{shows, Swept};

use super::layers::Layers;
use layout::boxes::Boxes;
use region::regions::Region;
use std::alloc::{AllocError, Global};

impl Layers {
    // The layers that are marked as wanted.
    pub fn sweep(heap: Global, boxes: &Boxes<'_>, wanted: &[bool]) -> Result<Layers, AllocError>
        ensures { IfOk result (λ v. Swept (covered boxes.now.rects.now) wanted.now v) }
    {
        let mut regions = Vec::new(heap);
        for (layer, want) in wanted.iter().enumerate() {
            let mut region = Region::empty(heap);
            if *want {
                region = Region::from_boxes(heap, boxes.rects, layer as u64)?;
            }
            regions.push(region)?;
        }
        let none = Region::empty(heap);
        Ok(Layers { regions, none })
    }

    // A layer's region, without a square where the layer was not swept.
    pub fn at(&self, layer: u64) -> &Region
        ensures { (x y : ℕ) → covers result.now.bands.items x y ≡ shows self.now layer x y }
    {
        match self.regions.get(layer as usize) {
            Some(region) => region,
            None => &self.none,
        }
    }

    // A copy of it.
    pub fn region(&self, _heap: Global, layer: u64) -> Result<Region, AllocError>
        ensures { IfOk result (λ v. (x y : ℕ) → covers v.bands.items x y ≡ shows self.now layer x y) }
    {
        self.at(layer).clone()
    }
}
