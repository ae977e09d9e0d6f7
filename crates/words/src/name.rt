// Names, numbered in the order in which they are said.
use indexmap::IndexMap;
use std::marker::Model;

pub mod lookup;

/// Names in their order. Each is spelled once, in a table that has its number: of one that was said again, the last.
#[derive(Drop)]
pub struct Names {
    numbers: IndexMap<Vec<u8>, usize>,
    /// Where in the table each name is spelled.
    places: Vec<usize>,
}

impl Model for Names {
    ghost use Rattle.std.specs.Prelude.{ℕ, List, map};
    ghost use Rattle.words.specs.Places.{Placed, spelled, spelled_at};

    // The names in the order in which they were added.
    ghost Value = { List (List ℕ) };

    ghost view = { λ t. map (spelled_at (spelled t.numbers)) t.places.items };

    ghost invariant = { λ t. Placed t.places.items t.numbers };
}
