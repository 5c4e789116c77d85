// The rescue of a damaged store: what each block is found to be, what becomes of it, and the whole.
#![tactic(auto)]

pub mod rescue;
pub mod rule;
pub mod state;
