// The layers of a layout as regions.
ghost use Rattle.std.specs.Prelude.{◌≡◌, ℕ, false};
ghost use Rattle.scanline.specs.Bands.{covers};

use region::regions::Region;

// By their numbers; one that was not wanted has no square. `none`, without a square too, stands for those past the end.
#[derive(Drop)]
pub struct Layers {
    pub(crate) regions: Vec<Region>,
    pub(crate) none: Region,
    ghost empty: { (x y : ℕ) → covers none.bands.items x y ≡ false },
}
