// The regions of a rule, each a term over earlier ones.

// The terms that a term names go by their numbers.
#[derive(Clone, Copy)]
pub enum Term {
    Layer(u64),
    And(usize, usize),
    Or(usize, usize),
    Without(usize, usize),
    Grown { by: u64, of: usize },
}

// What stands in the room that a rule's terms don't use.
impl Default for Term {
    fn default() -> Term {
        Term::Layer(0)
    }
}
