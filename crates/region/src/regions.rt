// A set of squares of a grid.
ghost use Rattle.std.specs.Prelude.{◌≡◌, ℕ};
ghost use Rattle.scanline.specs.Bands.{Canonical, covers};

use scanline::band::Band;
use std::alloc::AllocError;

// Its bands are in normal form, so that equal bands are the same squares.
#[derive(Drop, PartialEq, Eq)]
pub struct Region {
    pub(crate) bands: Vec<Band>,
    ghost canonical: { Canonical bands.items },
}

impl Clone for Region {
    ghost is_clone = { λ a b. (x y : ℕ) → covers b.bands.items x y ≡ covers a.bands.items x y };

    fn clone(&self) -> Result<Region, AllocError> {
        let bands = self.bands.clone()?;
        Ok(Region { bands })
    }
}

impl Region {
    // The squares that bands in normal form cover.
    pub fn of_bands(bands: Vec<Band>) -> Region
        requires { Canonical bands.items }
        ensures { result.bands.items ≡ bands.items }
    {
        Region { bands }
    }

    pub fn bands(&self) -> &[Band]
        ensures { result.now ≡ self.now.bands.items }
    {
        self.bands.as_slice()
    }
}
