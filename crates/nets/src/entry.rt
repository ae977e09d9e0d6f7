// The entry: numbers for spots by the nets that they are on.
ghost use Rattle.std.specs.Prelude.{◌≡◌, ◌*◌, length, MatchResult};
ghost use Rattle.layout.specs.Rects.{covered};
ghost use Rattle.nets.specs.Processes.{technology_of};
ghost use Rattle.nets.specs.Spots.{Counted};
ghost use Rattle.nets.specs.Numberings.{Says};

use crate::mask::Mask;
use crate::spot::{check_spots, number_spots};
use crate::technology::Technology;
use groups::number::Numbers;
use layout::boxes::Boxes;
use layout::layout::Layout;
use layout::refusal::Fault;
use std::alloc::{AllocError, Global};

impl<'b, 'p> Mask<'b, 'p> {
    // Numbers the spots by its nets. All memory is taken before the first number is written.
    fn number(&self, heap: Global, spots: &[u64], numbers: &mut [u64]) -> Result<(), AllocError>
        requires { length spots.now ≡ 3 * length numbers.old }
        ensures { MatchResult result (λ _. (length numbers.new ≡ length numbers.old) × Counted (technology_of self.now.process.now) (covered self.now.boxes.rects.now) spots.now (length numbers.old) numbers.new) (λ _. numbers.new ≡ numbers.old) }
    {
        let tiles = self.wire_tiles(heap)?;
        let mut groups = self.connect(heap, &tiles)?;
        let mut given = Numbers::new(heap, tiles.len())?;
        number_spots(&mut groups, &tiles, &mut given, spots, numbers);
        Ok(())
    }
}

/// Numbers spots by nets, in their order: 0 for a spot that is no wire, the number of an earlier spot from which one
/// can go there, else one more than there were. Looks at the layout first, then at the technology, then at the spots.
// The search knows which refusal comes first, so that it decides on any early return.
#[tactic(auto, unfolding(crate::specs::Numberings::nets_refusal))]
pub fn nets(
    heap: Global,
    layout: &[u64],
    technology: &[u64],
    spots: &[u64],
    numbers: &mut [u64],
) -> Result<(), Fault>
    ensures { Says layout.now technology.now spots.now numbers.old result numbers.new }
{
    let layout = Layout::read(layout)?;
    let technology = Technology::read(technology)?;
    check_spots(spots, numbers.len())?;
    let rects = layout.boxes(heap)?;
    let process = technology.process(heap)?;
    let boxes = Boxes { rects: &rects };
    let mask = Mask {
        boxes,
        process: &process,
    };
    mask.number(heap, spots, numbers)?;
    Ok(())
}
