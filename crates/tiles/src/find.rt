// The tile that holds a square.
ghost use Rattle.tiles.specs.Tiles.{Ordered, Located};

use crate::tile::Tile;

// The tile that holds a square of a layer, if one does. `Ordered` tells by cases which of two tiles comes first, and a
// ghost field takes no such fact: so it is a clause here and wherever tiles are asked for.
pub fn find_tile(tiles: &[Tile], layer: u64, x: u64, y: u64) -> Option<usize>
    requires { Ordered tiles.now }
    ensures { Located tiles.now layer x y result }
{
    let begun = tiles.partition_point(|tile| tile.starts(layer, x, y));
    let last = begun.checked_sub(1)?;
    if tiles[last].contains(layer, x, y) {
        Some(last)
    } else {
        None
    }
}
