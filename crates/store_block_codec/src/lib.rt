// A block made of an entry, and the rules that a block keeps.
#![tactic(auto)]

pub mod make;
pub mod rules;
