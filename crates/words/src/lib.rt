// What the readers of texts share: words with their lines, numbers, and names that are looked up.
#![tactic(auto)]

pub mod left;
pub mod line;
pub mod name;
pub mod number;
pub mod word;
