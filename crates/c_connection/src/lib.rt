// A connection in 32 lent bytes: read, made new, and written where it changes.
#![tactic(auto)]

pub mod layout;
pub mod offsets;
pub mod write;
