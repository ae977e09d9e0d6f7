// What the programs say: a sentence for each refusal, and lines of output.
#![tactic(auto)]

pub mod line;
pub mod sentence;
