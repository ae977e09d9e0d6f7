// Regions of layers cut into tiles, which tiles hang together, and which holds a square.
#![tactic(auto)]

pub mod cut;
pub mod find;
pub mod link;
pub mod tile;
