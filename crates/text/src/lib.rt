// Reads the texts of layouts and of rules into the numbers that the checker takes.
#![tactic(auto)]

pub mod keyword;
pub mod layout_text;
pub mod plan;
pub mod reader;
pub mod sheet;
pub mod statement;
