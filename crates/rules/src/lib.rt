// Rules judged: which square of a layout breaks a rule first, if any.
#![tactic(auto)]

pub mod broken;
pub mod evaluate;
pub mod judge;
pub mod judges;
pub mod law;
pub mod layers;
pub mod need;
pub mod read;
pub mod rule;
pub mod sweeps;
pub mod term;
pub mod terms;
