// Tiles that hang together.
ghost use Rattle.std.specs.Prelude.{◌≡◌, length, IfOk};
ghost use Rattle.groups.specs.Names.{size, group};
ghost use Rattle.groups.specs.Chains.{Grouped};
ghost use Rattle.tiles.specs.Tiles.{Ordered};
ghost use Rattle.tiles.specs.Links.{Touch};

use crate::tile::Tile;
use groups::forest::Groups;
use std::alloc::{AllocError, Global};

// The tiles in groups: in one exactly where a chain of tiles that share sides leads from one to the other.
// Of two tiles of neighbouring bands the one that ends first has met all that it can.
pub fn link_tiles(heap: Global, tiles: &[Tile]) -> Result<Groups, AllocError>
    requires { Ordered tiles.now }
    ensures { IfOk result (λ g. (size g ≡ length tiles.now) × Grouped (Touch tiles.now) (group g)) }
{
    let mut groups = Groups::new(heap, tiles.len())?;
    let mut i = 0;
    let mut j = 0;
    while i < tiles.len() && j < tiles.len() {
        let upper = tiles[i];
        let lower = tiles[j];
        if upper.meets(lower) {
            groups.join(i, j);
        }
        if upper.ends(lower) {
            i += 1;
        } else {
            j += 1;
        }
    }
    Ok(groups)
}
