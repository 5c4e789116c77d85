// Document 01, "Blocks": places in a block.
// A block.
pub const BLOCK_BYTES: usize = 512;

// After the byte that says whether it is used: the key's length.
pub const KEY_LENGTH: usize = 1;

// The version's.
pub const VERSION_LENGTH: usize = 2;

// The tag's.
pub const TAG_LENGTH: usize = 3;

// The value's, two bytes.
pub const VALUE_LENGTH: usize = 4;

pub const VALUE_LENGTH_LOW: usize = 5;

// The algorithm.
pub const ALGORITHM: usize = 6;

// The key.
pub const KEY: usize = 8;

// The version.
pub const VERSION: usize = 72;

// The tag.
pub const TAG: usize = 88;

// The value.
pub const VALUE: usize = 120;

// The check, four bytes.
pub const SUM: usize = 508;

pub const SUM_2: usize = 509;

pub const SUM_3: usize = 510;

pub const SUM_4: usize = 511;
