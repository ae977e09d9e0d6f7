// Nets: which spots of a layout hang together, along wire and through joining layers.
#![tactic(auto)]

pub mod entry;
pub mod join;
pub mod law;
pub mod limit;
pub mod mask;
pub mod process;
pub mod spot;
pub mod technology;
pub mod wire;

pub use entry::nets;
