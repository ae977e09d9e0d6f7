// Joins between layers: the tiles of both layers under each bridge are one net.
ghost use Rattle.std.specs.Prelude.{◌≡◌, length, IfOk};
ghost use Rattle.layout.specs.Rects.{covered};
ghost use Rattle.groups.specs.Names.{size, group};
ghost use Rattle.groups.specs.Chains.{Grouped};
ghost use Rattle.tiles.specs.Tiles.{Ordered};
ghost use Rattle.nets.specs.Nets.{wire};
ghost use Rattle.nets.specs.Processes.{technology_of};
ghost use Rattle.nets.specs.Wires.{Tiled, Named};
ghost use Rattle.nets.specs.Joins.{Bridges, Tied};

use crate::mask::Mask;
use crate::process::Join;
use groups::forest::Groups;
use region::regions::Region;
use scanline::Op;
use std::alloc::{AllocError, Global};
use tiles::cut::add_region;
use tiles::find::find_tile;
use tiles::link::link_tiles;
use tiles::tile::Tile;

// Makes the tiles under the first square of each bridge one group.
fn span(groups: &mut Groups, tiles: &[Tile], bridges: &[Tile], join: Join)
    requires ordered { Ordered tiles.now }
    requires sizes { size groups.old ≡ length tiles.now }
    ensures tied { Grouped (Tied (group groups.old) tiles.now bridges.now join) (group groups.new) }
    ensures sizes { size groups.new ≡ size groups.old }
{
    for bridge in bridges {
        let Some(i) = find_tile(tiles, join.one, bridge.left, bridge.top) else {
            continue;
        };
        let Some(j) = find_tile(tiles, join.other, bridge.left, bridge.top) else {
            continue;
        };
        groups.join(i, j);
    }
}

impl<'b, 'p> Mask<'b, 'p> {
    // Where the joining layer covers wire of both layers, in tiles.
    fn bridge_tiles(&self, heap: Global, join: Join) -> Result<Vec<Tile>, AllocError>
        ensures { IfOk result (λ v. Bridges (technology_of self.now.process.now) (covered self.now.boxes.rects.now) join v.items) }
    {
        let one = self.wire_region(heap, join.one)?;
        let other = self.wire_region(heap, join.other)?;
        let both = one.combine(heap, Op::And, &other)?;
        let layer = Region::from_boxes(heap, self.boxes.rects, join.by)?;
        let region = both.combine(heap, Op::And, &layer)?;
        let mut bridges = Vec::new(heap);
        add_region(&mut bridges, join.by, &region)?;
        Ok(bridges)
    }

    /// The tiles of wire in groups: in one exactly where one can go from one to the other.
    pub fn connect(&self, heap: Global, tiles: &[Tile]) -> Result<Groups, AllocError>
        requires { Tiled (wire (technology_of self.now.process.now) (covered self.now.boxes.rects.now)) tiles.now }
        ensures { IfOk result (λ g. (size g ≡ length tiles.now) × Named (technology_of self.now.process.now) (covered self.now.boxes.rects.now) tiles.now (group g)) }
    {
        let mut groups = link_tiles(heap, tiles)?;
        for join in self.process.joins.as_slice() {
            let bridges = self.bridge_tiles(heap, *join)?;
            span(&mut groups, tiles, &bridges, *join);
        }
        Ok(groups)
    }
}
