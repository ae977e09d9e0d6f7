// A band of rows that hold one line.
ghost use Rattle.std.specs.Prelude.{◌≡◌};

use super::lines::Line;
use super::starts::Starts;

// The rows from `from` on, up to the next band, hold `line`.
#[derive(Clone, Debug, Drop, PartialEq, Eq)]
pub struct Band {
    pub from: u64,
    pub line: Line,
}

impl Starts for Band {
    ghost start_of = { λ band. band.from };

    fn start(&self) -> u64 {
        self.from
    }
}
