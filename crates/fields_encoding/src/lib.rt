// The bytes of a message: definitions and theorems only (specs/). The crate `fields_write_bytes` has the code.
#![tactic(auto)]
