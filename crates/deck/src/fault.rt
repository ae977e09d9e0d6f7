// Why a deck is not judged.
ghost use Rattle.std.specs.Prelude.{◌≡◌, Some};
ghost use Rattle.deck.specs.Faults.{fault_text};
ghost use Rattle.deck.specs.declared.fault.DeckFault.TheVariants.{Memory};

use layout::refusal::Refusal;
use std::alloc::{AllocError, AllocFailed};
use std::error::Error;
use std::fmt;

#[derive(Clone, Copy, Debug, PartialEq)]
pub enum DeckFault {
    /// The layout is turned away.
    Layout(Refusal),
    /// A rule is turned away, the first that is: its place in the deck.
    Rule(usize, Refusal),
    Memory,
}

impl fmt::Display for DeckFault {
    ghost output = { λ e. Some (fault_text e) };

    fn fmt<W: fmt::Write>(&self, f: &mut fmt::Formatter<W>) -> fmt::Result {
        match self {
            DeckFault::Layout(refusal) | DeckFault::Rule(_, refusal) => write!(f, "{refusal}"),
            DeckFault::Memory => f.write_str("no memory"),
        }
    }
}

impl Error for DeckFault {}

impl From<AllocError> for DeckFault {
    ghost from_gives = { λ _ r. r ≡ Memory };

    fn from(_e: AllocError) -> DeckFault {
        DeckFault::Memory
    }
}

impl<T: Drop> From<AllocFailed<T>> for DeckFault {
    ghost from_gives = { λ _ r. r ≡ Memory };

    fn from(_e: AllocFailed<T>) -> DeckFault {
        DeckFault::Memory
    }
}
