// The words that begin a statement, and what has to follow each.
ghost use Rattle.std.specs.Prelude.{◌≡◌, slice_index};
ghost use Rattle.text.specs.Keywords.{keyword_of, slots, slot_at, turns, statement_of};

use super::statement::Statement;

#[derive(Clone, Copy)]
pub enum Keyword {
    Box,
    Cell,
    Close,
    Put,
    Turned,
    Mirrored,
    Row,
    Column,
    Pin,
}

/// What a further word of a statement has to be.
#[derive(Clone, Copy)]
pub enum Slot {
    Number,
    /// The name of a cell that has been said.
    Cell,
    /// A name that no cell has.
    NewCell,
    /// A name that no pin has.
    NewPin,
    /// The word `at`.
    At,
    /// An opening brace.
    Open,
}

pub(crate) fn keyword_of(word: &[u8]) -> Option<Keyword>
    ensures { result ≡ keyword_of word.now }
{
    match word {
        b"box" => Some(Keyword::Box),
        b"cell" => Some(Keyword::Cell),
        b"}" => Some(Keyword::Close),
        b"put" => Some(Keyword::Put),
        b"turned" => Some(Keyword::Turned),
        b"mirrored" => Some(Keyword::Mirrored),
        b"row" => Some(Keyword::Row),
        b"column" => Some(Keyword::Column),
        b"pin" => Some(Keyword::Pin),
        _ => None,
    }
}

impl Keyword {
    /// The words that follow, in their order.
    pub(crate) fn slots(self) -> &'static [Slot]
        ensures { result.now ≡ slots self }
    {
        match self {
            Keyword::Box => &[
                Slot::Number,
                Slot::Number,
                Slot::Number,
                Slot::Number,
                Slot::Number,
            ],
            Keyword::Cell => &[Slot::NewCell, Slot::Open],
            Keyword::Close => &[],
            Keyword::Put => &[Slot::Cell, Slot::At, Slot::Number, Slot::Number],
            Keyword::Turned => &[Slot::Number],
            Keyword::Mirrored => &[Slot::Number],
            Keyword::Row => &[Slot::Number, Slot::Number, Slot::Cell],
            Keyword::Column => &[Slot::Number, Slot::Number, Slot::Cell],
            Keyword::Pin => &[Slot::NewPin, Slot::Number, Slot::Number, Slot::Number],
        }
    }

    /// What the word after so many others has to be.
    pub(crate) fn slot(self, given: usize) -> Option<Slot>
        ensures { result ≡ slot_at (slots self) given }
    {
        self.slots().get(given).copied()
    }

    /// Whether turns may follow the statement.
    pub(crate) fn turns(self) -> bool
        ensures { result ≡ turns self }
    {
        matches!(self, Keyword::Put | Keyword::Turned | Keyword::Mirrored)
    }

    /// What the statement says, once all its words have their values.
    pub(crate) fn statement(self, values: &[u64]) -> Statement
        ensures { result ≡ statement_of self values.now }
    {
        match self {
            Keyword::Box => Statement::Box {
                layer: value_at(values, 0),
                x: value_at(values, 1),
                y: value_at(values, 2),
                across: value_at(values, 3),
                down: value_at(values, 4),
            },
            Keyword::Cell => Statement::Cell,
            Keyword::Close => Statement::Close,
            Keyword::Put => Statement::Put {
                cell: value_at(values, 0),
                x: value_at(values, 2),
                y: value_at(values, 3),
            },
            Keyword::Turned => Statement::Turned {
                side: value_at(values, 0),
            },
            Keyword::Mirrored => Statement::Mirrored {
                side: value_at(values, 0),
            },
            Keyword::Row => Statement::Row {
                many: value_at(values, 0),
                far: value_at(values, 1),
                cell: value_at(values, 2),
            },
            Keyword::Column => Statement::Column {
                many: value_at(values, 0),
                far: value_at(values, 1),
                cell: value_at(values, 2),
            },
            Keyword::Pin => Statement::Pin {
                layer: value_at(values, 1),
                x: value_at(values, 2),
                y: value_at(values, 3),
            },
        }
    }
}

/// The value at a place, or 0 past the end.
pub(crate) fn value_at(values: &[u64], i: usize) -> u64
    ensures { result ≡ slice_index values.now i }
{
    values.get(i).copied().unwrap_or(0)
}
