// The listed fields of a message, at every depth.
#![tactic(auto)]

pub mod nested;
pub mod slots;
