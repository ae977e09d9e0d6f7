// Why an entry of the checker turns its arguments away, and where. All entries share these.
ghost use Rattle.std.specs.Prelude.{◌≡◌, Some};
ghost use Rattle.layout.specs.Refusals.{number_of, place_of, refusal_text, fault_text};
ghost use Rattle.layout.specs.declared.refusal.Fault.TheVariants.{Refused as IsRefused, Memory};

use std::alloc::{AllocError, AllocFailed};
use std::error::Error;
use std::fmt;

/// A refusal, with its place counted from 0.
#[derive(Clone, Copy, Debug, PartialEq)]
pub enum Refusal {
    /// Nodes that aren't six numbers each, none, or too many: how many numbers.
    Nodes(usize),
    /// A number above the limit: its index.
    Number(usize),
    /// A node of no kind, or that names itself or a later one: the node.
    Node(usize),
    /// Too many boxes: the last node.
    Boxes(usize),
    /// Regions that aren't three numbers each, none, or too many: how many numbers.
    Regions(usize),
    /// A number of a region or a rule that can't stand there: its index.
    Region(usize),
    /// A technology of a wrong length or too many layers or joins: how many numbers.
    Technology(usize),
    /// Spots of a wrong length, too many or out of range: how many numbers, or the index of the first at fault.
    Spots(usize),
    /// Too little room for the devices: the room's length.
    Room(usize),
    /// A circuit at fault: 0 the first, 1 the second, 2 the names.
    Circuit(usize),
    /// A text that can't be read: the line.
    Text(usize),
}

impl Refusal {
    /// The number by which it is known.
    pub fn number(self) -> u64
        ensures { result ≡ number_of self }
    {
        match self {
            Refusal::Nodes(_) => 1,
            Refusal::Number(_) => 2,
            Refusal::Node(_) => 2,
            Refusal::Boxes(_) => 3,
            Refusal::Regions(_) => 4,
            Refusal::Region(_) => 5,
            Refusal::Technology(_) => 6,
            Refusal::Spots(_) => 7,
            Refusal::Room(_) => 8,
            Refusal::Circuit(_) => 9,
            Refusal::Text(_) => 10,
        }
    }

    pub fn place(self) -> usize
        ensures { result ≡ place_of self }
    {
        match self {
            Refusal::Nodes(place)
            | Refusal::Number(place)
            | Refusal::Node(place)
            | Refusal::Boxes(place)
            | Refusal::Regions(place)
            | Refusal::Region(place)
            | Refusal::Technology(place)
            | Refusal::Spots(place)
            | Refusal::Room(place)
            | Refusal::Circuit(place)
            | Refusal::Text(place) => place,
        }
    }
}

impl fmt::Display for Refusal {
    ghost output = { λ r. Some (refusal_text r) };

    fn fmt<W: fmt::Write>(&self, f: &mut fmt::Formatter<W>) -> fmt::Result {
        let number = self.number();
        let place = self.place();
        write!(f, "refusal {number} at {place}")
    }
}

impl Error for Refusal {}

/// Why there is no answer: the arguments are turned away, or there is no memory.
#[derive(Clone, Copy, Debug, PartialEq)]
pub enum Fault {
    Refused(Refusal),
    Memory,
}

impl fmt::Display for Fault {
    ghost output = { λ e. Some (fault_text e) };

    fn fmt<W: fmt::Write>(&self, f: &mut fmt::Formatter<W>) -> fmt::Result {
        match self {
            Fault::Refused(refusal) => write!(f, "{refusal}"),
            Fault::Memory => f.write_str("no memory"),
        }
    }
}

impl Error for Fault {}

impl From<AllocError> for Fault {
    ghost from_gives = { λ _ r. r ≡ Memory };

    fn from(_e: AllocError) -> Fault {
        Fault::Memory
    }
}

impl From<Refusal> for Fault {
    ghost from_gives = { λ e r. r ≡ IsRefused e };

    fn from(e: Refusal) -> Fault {
        Fault::Refused(e)
    }
}

impl<T: Drop> From<AllocFailed<T>> for Fault {
    ghost from_gives = { λ _ r. r ≡ Memory };

    fn from(_e: AllocFailed<T>) -> Fault {
        Fault::Memory
    }
}
