// Varints of the Protocol Buffers encoding, and the definitions of its fields.
#![tactic(auto)]

pub mod varint;
