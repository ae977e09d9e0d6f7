// Why the words of a line are no rule.
ghost use Rattle.std.specs.Prelude.{◌≡◌};
ghost use Rattle.rule_text.specs.declared.stop.Stop.TheVariants.{Memory};
ghost use Rattle.rule_text.specs.Faults.{fault_at};

use layout::refusal::{Fault, Refusal};
use std::alloc::{AllocError, AllocFailed};

#[derive(Clone, Copy)]
pub(crate) enum Stop {
    /// A word can't stand where it stands, or one is missing.
    Unreadable,
    Memory,
}

impl From<AllocError> for Stop {
    ghost from_gives = { λ _ r. r ≡ Memory };

    fn from(_e: AllocError) -> Stop {
        Stop::Memory
    }
}

impl<T: Drop> From<AllocFailed<T>> for Stop {
    ghost from_gives = { λ _ r. r ≡ Memory };

    fn from(_e: AllocFailed<T>) -> Stop {
        Stop::Memory
    }
}

impl Stop {
    /// The fault of a line.
    pub(crate) fn at(self, line: usize) -> Fault
        ensures { result ≡ fault_at line self }
    {
        match self {
            Stop::Unreadable => Fault::Refused(Refusal::Text(line)),
            Stop::Memory => Fault::Memory,
        }
    }
}
