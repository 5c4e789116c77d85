// The reply of GETKEYRANGE, document 01, "Replies": its body, and the whole of it.
#![tactic(auto)]

pub mod parts;
pub mod whole;
