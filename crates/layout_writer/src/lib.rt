// Writes a layout in numbers as a text that means the same drawing.
#![tactic(auto)]

pub mod cell;
pub mod law;
pub mod line;
pub mod write;

pub use write::write_layout;
