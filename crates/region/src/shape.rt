// Regions made, and looked into.
ghost use Rattle.std.specs.Prelude.{◌≡◌, ℕ, ◌^◌, ◌<◌, false, not, ◌&&◌, IfOk, nat_le, nat_lt};
ghost use Rattle.std.specs.List.{AllByRecursion};
ghost use Rattle.layout.specs.Rects.{Within, covered};
ghost use Rattle.scanline.specs.Bands.{covers};
ghost use Rattle.region.specs.Firsts.{FirstOf};

use super::regions::Region;
use layout::rect::Rect;
use scanline::Op;
use scanline::band::Band;
use scanline::lines::Line;
use scanline::sweep::sweep;
use std::alloc::{AllocError, Global};

impl Region {
    pub fn empty(heap: Global) -> Region
        ensures { (x y : ℕ) → covers result.bands.items x y ≡ false }
    {
        let bands = Vec::new(heap);
        Region { bands }
    }

    // The squares from (left, top) up to (right, bottom), without these two edges.
    pub fn rectangle(
        heap: Global,
        left: u64,
        right: u64,
        top: u64,
        bottom: u64,
    ) -> Result<Region, AllocError>
        requires wide { left < right }
        requires high { top < bottom }
        ensures { IfOk result (λ v. (x y : ℕ) → covers v.bands.items x y ≡ (nat_le left x && nat_lt x right && (nat_le top y && nat_lt y bottom))) }
    {
        let line = Line::interval(heap, left, right)?;
        let none = Line::empty(heap);
        let bands = vec![in heap;
            Band { from: top, line },
            Band {
                from: bottom,
                line: none
            },
        ]?;
        Ok(Region { bands })
    }

    // The squares that the boxes of a layer cover.
    pub fn from_boxes(heap: Global, boxes: &[Rect], layer: u64) -> Result<Region, AllocError>
        requires { AllByRecursion (Within (2 ^ 63)) boxes.now }
        ensures { IfOk result (λ v. (x y : ℕ) → covers v.bands.items x y ≡ covered boxes.now layer x y) }
    {
        let bands = sweep(heap, boxes, layer)?;
        Ok(Region { bands })
    }

    // All squares from a column and a row on.
    pub fn quadrant(heap: Global, left: u64, top: u64) -> Result<Region, AllocError>
        ensures { IfOk result (λ v. (x y : ℕ) → covers v.bands.items x y ≡ (nat_le left x && nat_le top y)) }
    {
        let line = Line::ray(heap, left)?;
        let bands = vec![in heap; Band { from: top, line }]?;
        Ok(Region { bands })
    }

    // All squares that are not in it.
    pub fn complement(&self, heap: Global) -> Result<Region, AllocError>
        ensures { IfOk result (λ v. (x y : ℕ) → covers v.bands.items x y ≡ not (covers self.now.bands.items x y)) }
    {
        let all = Region::quadrant(heap, 0, 0)?;
        all.combine(heap, Op::Without, self)
    }

    pub fn contains(&self, x: u64, y: u64) -> bool
        ensures { result ≡ covers self.now.bands.items x y }
    {
        match self.bands.partition_point(|band| band.from <= y) {
            0 => false,
            begun => self.bands[begun - 1].line.contains(x),
        }
    }

    // The first square, by rows: in normal form it begins the first band.
    pub fn first(&self) -> Option<(u64, u64)>
        ensures { FirstOf (covers self.now.bands.items) result }
    {
        match self.bands() {
            [band, ..] => match band.line.edges() {
                [x, ..] => Some((*x, band.from)),
                [] => None,
            },
            [] => None,
        }
    }
}
