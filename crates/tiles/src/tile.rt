// A tile: a box of one layer.
ghost use Rattle.std.specs.Prelude.{Decides};
ghost use Rattle.tiles.specs.Tiles.{Holds, Starts};
ghost use Rattle.tiles.specs.Links.{Meets, Ends};

// The squares of a layer from (left, top) up to (right, bottom), without these two edges.
#[derive(Clone, Copy)]
pub struct Tile {
    pub layer: u64,
    pub left: u64,
    pub right: u64,
    pub top: u64,
    pub bottom: u64,
}

impl Tile {
    pub fn contains(self, layer: u64, x: u64, y: u64) -> bool
        ensures { Decides result (Holds self layer x y) }
    {
        (self.layer == layer)
            & (self.left <= x)
            & (x < self.right)
            & (self.top <= y)
            & (y < self.bottom)
    }

    // Whether a tile that holds the square is this one or comes after it.
    pub fn starts(self, layer: u64, x: u64, y: u64) -> bool
        ensures { Decides result (Starts self layer x y) }
    {
        let reached = (self.top <= y) & (self.left <= x);
        let above = (self.bottom <= y) | reached;
        (self.layer < layer) | ((self.layer == layer) & above)
    }

    // Whether the other lies right below, and they share a part of a side.
    pub fn meets(self, other: Tile) -> bool
        ensures { Decides result (Meets self other) }
    {
        (self.layer == other.layer)
            & (self.bottom == other.top)
            & (self.left < other.right)
            & (other.left < self.right)
    }

    // Whether no tile after the other lies right below this one.
    pub fn ends(self, other: Tile) -> bool
        ensures { Decides result (Ends self other) }
    {
        let left_of = (self.bottom == other.top) & (self.right <= other.right);
        let above = (self.bottom < other.top) | left_of;
        (self.layer < other.layer) | ((self.layer == other.layer) & above)
    }
}
