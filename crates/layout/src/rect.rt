// A box of a layer, and the ways to change one.
ghost use Rattle.std.specs.Prelude.{◌≡◌, ◌^◌, ◌≤◌};
ghost use Rattle.layout.specs.Rects.{Within, in_rect, covered, move_rect, turn_rect, mirror_rect};

/// So many squares across and down from a square on, on a layer.
#[derive(Clone, Copy, Debug, PartialEq)]
pub struct Rect {
    pub layer: u64,
    pub x: u64,
    pub y: u64,
    pub across: u64,
    pub down: u64,
}

impl Rect {
    pub(crate) fn moved(self, right: u64, below: u64) -> Rect
        requires { (Within (2 ^ 48) self) × ((right ≤ 2 ^ 48) × (below ≤ 2 ^ 48)) }
        ensures { result ≡ move_rect right below self }
    {
        Rect {
            x: self.x + right,
            y: self.y + below,
            ..self
        }
    }

    /// Turned a quarter within a square of this side, what lies beyond it cut off.
    pub(crate) fn turned(self, side: u64) -> Rect
        requires { Within (2 ^ 48) self }
        ensures { result ≡ turn_rect side self }
    {
        let left = side.saturating_sub(self.y + self.down);
        Rect {
            layer: self.layer,
            x: left,
            y: self.x,
            across: side.saturating_sub(self.y) - left,
            down: (self.x + self.across).min(side).saturating_sub(self.x),
        }
    }

    /// Mirrored in a square of this side, what lies beyond it cut off.
    pub(crate) fn mirrored(self, side: u64) -> Rect
        requires { Within (2 ^ 48) self }
        ensures { result ≡ mirror_rect side self }
    {
        let left = side.saturating_sub(self.x + self.across);
        Rect {
            x: left,
            across: side.saturating_sub(self.x) - left,
            ..self
        }
    }

    pub fn contains(self, layer: u64, x: u64, y: u64) -> bool
        ensures { result ≡ in_rect self layer x y }
    {
        layer == self.layer
            && self.x <= x
            && x - self.x < self.across
            && self.y <= y
            && y - self.y < self.down
    }
}

/// Whether one of the boxes covers a square.
pub fn covers(rects: &[Rect], layer: u64, x: u64, y: u64) -> bool
    ensures { result ≡ covered rects.now layer x y }
{
    rects.iter().any(|q| q.contains(layer, x, y))
}
