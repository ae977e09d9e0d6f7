// A rule as it is held: up to sixteen regions by value, and what is asked of the meant ones.
ghost use Rattle.std.specs.Prelude.{◌≡◌, length, take};
ghost use Rattle.rules.specs.Sound.{Sound};
ghost use Rattle.std.proofs.Props.{props};

use super::term::Term;

/// How many regions a rule may have.
pub const MAX_REGIONS: usize = 16;

// The last term is meant, and for `Inside` the one before it comes first.
#[derive(Clone, Copy)]
pub enum Test {
    Wide(u64),
    Apart(u64),
    Inside(u64),
    Never,
}

// Its terms are the first `len`: an array, so that a rule can be copied.
#[derive(Clone, Copy)]
pub struct Rule {
    pub terms: [Term; MAX_REGIONS],
    pub len: usize,
    pub test: Test,
    ghost fits: { length (take len terms) ≡ len },
    ghost sound: { Sound (take len terms) test } by { Prim.hlevel props },
}

impl Rule {
    // Those of its terms that are in use.
    pub fn terms(&self) -> &[Term]
        ensures value { result.now ≡ take self.now.len self.now.terms }
        ensures len { length result.now ≡ self.now.len }
    {
        &self.terms[..self.len]
    }
}
