// Tiles in groups, each with the first tile of its group.
ghost use Rattle.std.specs.Prelude.{◌≡◌, ℕ, length, IfOk};
ghost use Rattle.layout.specs.Rects.{covered};
ghost use Rattle.groups.specs.Names.{size, group};
ghost use Rattle.tiles.specs.Tiles.{Ordered};
ghost use Rattle.tiles.specs.Cuts.{Bounded};
ghost use Rattle.nets.specs.Processes.{technology_of};
ghost use Rattle.devices.specs.Pieces.{root_of, RootAt, Linked, Wired};

use groups::forest::Groups;
use nets::mask::Mask;
use region::regions::Region;
use std::alloc::{AllocError, Global};
use tiles::cut::add_region;
use tiles::find::find_tile;
use tiles::link::link_tiles;
use tiles::tile::Tile;

/// Tiles in order, and of each the first tile of its group; apart, since tiles are searched as one array.
#[derive(Drop)]
pub struct Pieces {
    pub tiles: Vec<Tile>,
    pub roots: Vec<usize>,
    ghost long: { length roots.items ≡ length tiles.items },
}

// The first item of the group of each.
fn roots_of(heap: Global, groups: &mut Groups, count: usize) -> Result<Vec<usize>, AllocError>
    requires { size groups.old ≡ count }
    ensures { IfOk result (λ v. (length v.items ≡ count) × ((i : ℕ) → root_of v.items i ≡ group groups.old i)) }
{
    let mut roots = Vec::new(heap);
    for i in 0..count {
        let root = groups.find(i);
        roots.push(root)?;
    }
    Ok(roots)
}

impl Pieces {
    // The tiles of a region of a layer, in groups of those that hang together.
    pub fn of_region(heap: Global, layer: u64, region: &Region) -> Result<Pieces, AllocError>
        requires { Bounded region.now.bands.items }
        ensures { IfOk result (λ p. Linked layer region.now.bands.items p.tiles.items p.roots.items) }
    {
        let mut tiles = Vec::new(heap);
        add_region(&mut tiles, layer, region)?;
        let mut groups = link_tiles(heap, &tiles)?;
        let roots = roots_of(heap, &mut groups, tiles.len())?;
        Ok(Pieces { tiles, roots })
    }

    // The tiles of wire, in groups by their nets.
    pub fn of_wire(heap: Global, mask: &Mask<'_, '_>) -> Result<Pieces, AllocError>
        ensures { IfOk result (λ p. Wired (technology_of mask.now.process.now) (covered mask.now.boxes.rects.now) p.tiles.items p.roots.items) }
    {
        let tiles = mask.wire_tiles(heap)?;
        let mut groups = mask.connect(heap, &tiles)?;
        let roots = roots_of(heap, &mut groups, tiles.len())?;
        Ok(Pieces { tiles, roots })
    }

    // The first tile of the group of the tile that holds a square, if one does.
    pub fn root_at(&self, layer: u64, x: u64, y: u64) -> Option<usize>
        requires { Ordered self.now.tiles.items }
        ensures { RootAt self.now.tiles.items self.now.roots.items layer x y result }
    {
        let tile = find_tile(&self.tiles, layer, x, y)?;
        Some(self.roots[tile])
    }
}
