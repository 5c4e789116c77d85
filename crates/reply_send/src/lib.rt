// Replies to whom they are due, and the reply that closes a connection.
#![tactic(auto)]

pub mod close;
pub mod send;
