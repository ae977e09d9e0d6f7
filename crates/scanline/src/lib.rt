// Sets of numbers as lines: strictly increasing edges, at each of which the set begins or ends.
#![tactic(auto)]

ghost use Rattle.std.specs.Prelude.{◌≡◌};
ghost use Rattle.scanline.specs.Lines.{applied};

#[derive(Clone, Copy, Debug, PartialEq)]
pub enum Op {
    And,
    Or,
    Without,
    Xor,
}

impl Op {
    // Whether a place is in the result, from whether it is in each operand.
    pub fn apply(self, a: bool, b: bool) -> bool
        ensures { result ≡ applied self a b }
    {
        match self {
            Op::And => a && b,
            Op::Or => a || b,
            Op::Without => a && !b,
            Op::Xor => a != b,
        }
    }
}

pub mod band;
pub mod bands;
pub mod combine;
pub mod lines;
pub mod live;
pub mod shift;
pub mod span;
pub mod spans;
pub mod spread;
pub mod starts;
pub mod sweep;
pub mod union;
