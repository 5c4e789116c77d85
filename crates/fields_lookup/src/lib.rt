// What a message says of a number: a number, or a part of the message.
#![tactic(auto)]

pub mod parts;
