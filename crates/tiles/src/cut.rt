// Regions cut into tiles, band by band.
ghost use Rattle.std.specs.Prelude.{◌≡◌, ◌++◌, OnOk};
ghost use Rattle.tiles.specs.Cuts.{line_tiles, band_tiles, Bounded, Cut};

use crate::tile::Tile;
use region::regions::Region;
use scanline::band::Band;
use std::alloc::AllocError;

// Adds the intervals of a line, over the rows from `top` up to `bottom`.
fn add_line(
    tiles: &mut Vec<Tile>,
    layer: u64,
    top: u64,
    bottom: u64,
    edges: &[u64],
) -> Result<(), AllocError>
    ensures { OnOk result (tiles.new.items ≡ tiles.old.items ++ line_tiles layer top bottom edges.now) }
{
    let mut rest = edges;
    while let [left, right, after @ ..] = rest {
        tiles.push(Tile {
            layer,
            left: *left,
            right: *right,
            top,
            bottom,
        })?;
        rest = after;
    }
    Ok(())
}

// Adds the intervals of each band, which ends where the next one begins.
fn add_bands(tiles: &mut Vec<Tile>, layer: u64, bands: &[Band]) -> Result<(), AllocError>
    ensures { OnOk result (tiles.new.items ≡ tiles.old.items ++ band_tiles layer bands.now) }
{
    let mut rest = bands;
    while let [band, next, ..] = rest {
        add_line(tiles, layer, band.from, next.from, band.line.edges())?;
        rest = &rest[1..];
    }
    Ok(())
}

// Adds the tiles of a region of a layer.
pub fn add_region(tiles: &mut Vec<Tile>, layer: u64, region: &Region) -> Result<(), AllocError>
    requires { Bounded region.now.bands.items }
    ensures { OnOk result (Cut layer region.now.bands.items tiles.old.items tiles.new.items) }
{
    add_bands(tiles, layer, region.bands())?;
    Ok(())
}
