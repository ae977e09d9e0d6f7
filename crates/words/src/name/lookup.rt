// Names added and found again.
ghost use Rattle.std.specs.Prelude.{◌≡◌, [], ◌∷◌, ◌++◌, length, OnOk};
ghost use Rattle.words.specs.Places.{place_of};

use super::Names;
use indexmap::IndexMap;
use std::alloc::{AllocError, Global};

impl Names {
    pub fn new(heap: Global) -> Names
        ensures { result ≡ [] }
    {
        Names {
            numbers: IndexMap::new(heap),
            places: Vec::new(heap),
        }
    }

    /// How many names there are.
    pub fn len(&self) -> usize
        ensures { result ≡ length self.now }
    {
        self.places.len()
    }

    /// The number of a name: the last that was added so.
    pub fn find(&self, name: &[u8]) -> Option<usize>
        ensures { result ≡ place_of self.now name.now }
    {
        self.numbers.get(name).copied()
    }

    /// Adds a name under the next number.
    pub fn add(&mut self, heap: Global, name: &[u8]) -> Result<(), AllocError>
        ensures { OnOk result (self.new ≡ self.old ++ name.now ∷ []) }
    {
        let name = name.to_vec(heap)?;
        let number = self.places.len();
        // With room for its place made first, the name comes into both or into neither.
        self.places.reserve(1)?;
        let (place, _) = self.numbers.insert_full(name, number)?;
        self.places.push(place)?;
        Ok(())
    }
}
