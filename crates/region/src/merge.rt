// Two regions merged into one, row by row.
ghost use Rattle.std.specs.Prelude.{◌≡◌, IfOk};
ghost use Rattle.scanline.specs.Edges.{edges_of};
ghost use Rattle.scanline.specs.Bands.{lastLine};
ghost use Rattle.region.specs.Regions.{Combined};

use super::regions::Region;
use scanline::Op;
use scanline::band::Band;
use scanline::bands::add_band;
use scanline::lines::Line;
use scanline::starts::{first_start, pass};
use std::alloc::{AllocError, Global};

// The line of the last of some bands, or the one before them.
fn line_after<'a>(line: &'a Line, bands: &'a [Band]) -> &'a Line
    ensures { edges_of result.now ≡ lastLine (edges_of line.now) bands.now }
{
    match bands {
        [.., band] => &band.line,
        [] => line,
    }
}

impl Region {
    // The squares that `op` picks by whether they are in each of the two.
    pub fn combine(&self, heap: Global, op: Op, other: &Region) -> Result<Region, AllocError>
        ensures { IfOk result (λ v. Combined op self.now.bands.items other.now.bands.items v.bands.items) }
    {
        let none = Line::empty(heap);
        let mut bands = Vec::new(heap);
        let mut line_a = &none;
        let mut line_b = &none;
        let mut a = self.bands();
        let mut b = other.bands();
        while let Some(row) = first_start(a, b) {
            let (here_a, rest_a) = pass(a, row);
            let (here_b, rest_b) = pass(b, row);
            line_a = line_after(line_a, here_a);
            line_b = line_after(line_b, here_b);
            a = rest_a;
            b = rest_b;
            let line = line_a.combine(heap, op, line_b)?;
            add_band(&mut bands, row, line)?;
        }
        Ok(Region { bands })
    }
}
