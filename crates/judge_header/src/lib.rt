// Document 01, "The order of judgement", steps 4 to 7: the rules of the header, and what a messageType asks for.
#![tactic(auto)]

pub mod header;
pub mod message_type;
