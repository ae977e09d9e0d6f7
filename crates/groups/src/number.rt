// Numbers for groups, in the order in which they come.
ghost use Rattle.std.specs.Prelude.{◌+◌, ◌^◌, ◌<◌, length, IfOk};
ghost use Rattle.groups.specs.Numbers.{seen, count, Given, Fresh};

use std::alloc::{AllocError, Global};

// The number that each root was given, 0 for none, and how many were given.
#[derive(Drop)]
pub struct Numbers {
    known: Vec<u64>,
    given: u64,
}

impl Numbers {
    // No root of n has a number.
    pub fn new(heap: Global, n: usize) -> Result<Numbers, AllocError>
        ensures { IfOk result (λ v. Fresh n (seen v) (count v)) }
    {
        let known = vec![in heap; 0; n]?;
        Ok(Numbers { known, given: 0 })
    }

    // The number of a root; a new one where it has none.
    pub fn number(&mut self, root: usize) -> u64
        requires within { root < length (seen self.old) }
        requires room { count self.old + 1 < 2 ^ 64 }
        ensures { Given (seen self.old) (count self.old) root (seen self.new) (count self.new) result }
    {
        let known = self.known[root];
        if known != 0 {
            return known;
        }
        self.given += 1;
        self.known[root] = self.given;
        self.given
    }
}
