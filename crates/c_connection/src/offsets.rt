// Places in the bytes of a connection, after its number.
// Protected.
pub const PROTECTED: usize = 8;

// Closed.
pub const CLOSED: usize = 9;

// A sequence was accepted.
pub const SEEN: usize = 10;

// The last accepted sequence.
pub const LAST: usize = 16;
