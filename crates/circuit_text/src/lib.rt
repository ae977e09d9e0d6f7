// Reads circuit texts into the numbers that the comparison of circuits takes.
#![tactic(auto)]

pub mod circuit;
pub mod reader;
pub mod statement;

pub use reader::read_circuit;
