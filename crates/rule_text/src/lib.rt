// Reads rule texts into the numbers that the rule entries take.
#![tactic(auto)]

pub mod expression;
pub mod law;
pub mod operator;
pub mod reader;
pub mod rule;
pub mod stop;

pub use reader::read_rules;
