// Laws of layouts, each asked for by a contract.
ghost use Rattle.layout.specs.Laws.{BoxMoved, Quarters, MirrorTwice};

/// A box that is moved is a box; four quarters are none, and neither is a mirror of a mirror, within the side.
pub fn laws_stand() -> u8
    ensures box_moved { BoxMoved }
    ensures quarters { Quarters }
    ensures mirror_twice { MirrorTwice }
{
    0
}
