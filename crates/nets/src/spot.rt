// Spots in threes, layer, x and y, and the nets that they are on.
ghost use Rattle.std.specs.Prelude.{◌≡◌, ◌*◌, length};
ghost use Rattle.groups.specs.Names.{size, group};
ghost use Rattle.groups.specs.Numbers.{seen, count, Fresh, Numbered};
ghost use Rattle.tiles.specs.Tiles.{Ordered};
ghost use Rattle.nets.specs.Spots.{Placed, tile_of_spot};

use crate::limit::{MAX_SPOT, MAX_SPOTS};
use groups::forest::Groups;
use groups::number::Numbers;
use layout::number::first_above;
use layout::refusal::Refusal;
use tiles::find::find_tile;
use tiles::tile::Tile;

// Turns spots away that are at fault, if `asked` numbers are asked for.
pub fn check_spots(spots: &[u64], asked: usize) -> Result<(), Refusal>
    ensures { Placed spots.now asked result }
{
    if asked > MAX_SPOTS {
        return Err(Refusal::Spots(spots.len()));
    }
    if spots.len() != 3 * asked {
        return Err(Refusal::Spots(spots.len()));
    }
    match first_above(spots, MAX_SPOT) {
        Some(place) => Err(Refusal::Spots(place)),
        None => Ok(()),
    }
}

// Numbers the spots in their order: 0 for none, the number of an earlier spot of the same group, else one more than
// there were.
pub fn number_spots(
    groups: &mut Groups,
    tiles: &[Tile],
    given: &mut Numbers,
    spots: &[u64],
    numbers: &mut [u64],
)
    requires ordered { Ordered tiles.now }
    requires sizes { size groups.old ≡ length tiles.now }
    requires fresh { Fresh (length tiles.now) (seen given.old) (count given.old) }
    requires asked { length spots.now ≡ 3 * length numbers.old }
    ensures { Numbered (group groups.old) (tile_of_spot tiles.now spots.now) (length numbers.old) numbers.new }
{
    for i in 0..numbers.len() {
        match find_tile(tiles, spots[3 * i], spots[3 * i + 1], spots[3 * i + 2]) {
            None => numbers[i] = 0,
            Some(tile) => {
                let root = groups.find(tile);
                numbers[i] = given.number(root);
            }
        }
    }
}
