// Regions moved in the four directions. Later rows can pass the last one, and earlier ones the first, so the two are no
// twins; to the right and left each line is moved by itself.
ghost use Rattle.std.specs.Prelude.{IfOk};
ghost use Rattle.region.specs.Shifts.{ShiftedRight, ShiftedLeft, ShiftedDown, ShiftedUp};

use super::regions::Region;
use scanline::band::Band;
use scanline::bands::add_band;
use std::alloc::{AllocError, Global};

impl Region {
    // The bands, each `by` rows later, without those that would begin past the last row.
    pub fn shift_down(&self, heap: Global, by: u64) -> Result<Region, AllocError>
        ensures { IfOk result (λ v. ShiftedDown by self.now.bands.items v.bands.items) }
    {
        let mut bands = Vec::new(heap);
        for band in &self.bands {
            let Some(from) = band.from.checked_add(by) else {
                return Ok(Region { bands });
            };
            let line = band.line.clone()?;
            bands.push(Band { from, line })?;
        }
        Ok(Region { bands })
    }

    // The bands, each `by` rows earlier; of those that come to the first row only the last one shows.
    pub fn shift_up(&self, heap: Global, by: u64) -> Result<Region, AllocError>
        ensures { IfOk result (λ v. ShiftedUp by self.now.bands.items v.bands.items) }
    {
        let mut bands: Vec<Band> = Vec::new(heap);
        for band in &self.bands {
            if band.from <= by {
                bands.clear();
            }
            let line = band.line.clone()?;
            add_band(&mut bands, band.from.saturating_sub(by), line)?;
        }
        Ok(Region { bands })
    }

    pub fn shift_right(&self, heap: Global, by: u64) -> Result<Region, AllocError>
        ensures { IfOk result (λ v. ShiftedRight by self.now.bands.items v.bands.items) }
    {
        self.change_lines(heap, |line| line.shift_right(heap, by))
    }

    pub fn shift_left(&self, heap: Global, by: u64) -> Result<Region, AllocError>
        ensures { IfOk result (λ v. ShiftedLeft by self.now.bands.items v.bands.items) }
    {
        self.change_lines(heap, |line| line.shift_left(heap, by))
    }
}
