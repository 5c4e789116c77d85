// What the calls but the answering one say to C, and what becomes of the answering call's response.
#![tactic(auto)]

pub mod host;
pub mod store;
