// What judging a rule says.

// An enum of its own and no `Option`, since `None` would not say which answer is the good one.
#[derive(Clone, Copy, Debug, PartialEq, Eq)]
pub enum Verdict {
    Clean,
    /// The first square that breaks the rule, by its column and its row: the least row, and in it the least column.
    Broken(u64, u64),
}
