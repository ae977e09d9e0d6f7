// Lists of bands, built from above.
ghost use Rattle.std.specs.Prelude.{◌≡◌, [], OnOk};
ghost use Rattle.scanline.specs.Edges.{edges_of};
ghost use Rattle.scanline.specs.Bands.{lastLine, Added};

use super::band::Band;
use super::lines::Line;
use std::alloc::AllocError;

// The edges of the last band.
fn last_line(bands: &[Band]) -> &[u64]
    ensures { result.now ≡ lastLine [] bands.now }
{
    match bands {
        [.., band] => band.line.edges(),
        [] => &[],
    }
}

// One more band, unless it has the line of the last one.
pub fn add_band(bands: &mut Vec<Band>, from: u64, line: Line) -> Result<(), AllocError>
    ensures { OnOk result (Added from (edges_of line) bands.old.items bands.new.items) }
{
    if last_line(bands.as_slice()) == line.edges() {
        return Ok(());
    }
    bands.push(Band { from, line })?;
    Ok(())
}
