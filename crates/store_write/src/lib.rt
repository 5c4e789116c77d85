// A lent store written: made blank, an entry put, an entry deleted.
#![tactic(auto)]

pub mod delete;
pub mod put;
pub mod write;
