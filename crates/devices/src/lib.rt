// Devices: channels under gates, and the nets at their ends.
#![tactic(auto)]

pub mod border;
pub mod channel;
pub mod crossing;
pub mod direction;
pub mod entry;
pub mod law;
pub mod piece;
pub mod reading;
pub mod terminal;

pub use entry::devices;
