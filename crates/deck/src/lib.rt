// Decks of rules: the squares that break each rule, with the layout written out once and each layer swept once.
#![tactic(auto)]

pub mod fault;
pub mod judge;
pub mod read;

pub use judge::judge_deck;
