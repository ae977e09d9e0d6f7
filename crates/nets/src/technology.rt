// A technology in numbers that is taken.
ghost use Rattle.std.specs.Prelude.{◌≡◌, true};
ghost use Rattle.nets.specs.Technologies.{technology_ok};

pub mod read;

/// The numbers of layers, joins, the gate's layer and the crossed one; a mark for each layer, and threes for joins.
#[derive(Clone, Copy)]
pub struct Technology<'a> {
    pub(crate) numbers: &'a [u64],
    ghost sound: { technology_ok numbers.now ≡ true },
}
