// The area of a region: how many squares it has.
#![tactic(auto)]

ghost use Rattle.std.specs.Prelude.{◌*◌, ◌<◌};
ghost use Rattle.scanline.specs.Bands.{Canonical, covers, edges};
ghost use Rattle.area.specs.Areas.{length_of, area_of, Sums, Counted};

use region::regions::Region;
use scanline::band::Band;

// The sum of the intervals of a line, unless no u64 holds it.
fn line_length(edges: &[u64]) -> Option<u64>
    ensures { Sums (length_of edges.now) result }
{
    let mut sum: u64 = 0;
    let mut rest = edges;
    while let [left, right, after @ ..] = rest {
        sum = sum.checked_add(right.saturating_sub(*left))?;
        rest = after;
    }
    Some(sum)
}

// The squares of a band that goes on for so many rows.
fn band_area(band: &Band, rows: u64) -> Option<u64>
    requires { 0 < rows }
    ensures { Sums (length_of (edges band.now) * rows) result }
{
    line_length(band.line.edges())?.checked_mul(rows)
}

fn bands_area(bands: &[Band]) -> Option<u64>
    requires { Canonical bands.now }
    ensures { Sums (area_of bands.now) result }
{
    let mut sum: u64 = 0;
    let mut rest = bands;
    while let [band, next, ..] = rest {
        let area = band_area(band, next.from - band.from)?;
        sum = sum.checked_add(area)?;
        rest = &rest[1..];
    }
    Some(sum)
}

/// How many squares a region has, unless no u64 holds their number.
pub fn area(region: &Region) -> Option<u64>
    ensures { Counted (covers region.now.bands.items) result }
{
    bands_area(region.bands())
}
