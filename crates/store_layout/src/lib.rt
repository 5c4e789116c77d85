// A lent store: what calls on its entries answer, whether its size is right, and how many blocks are used.
#![tactic(auto)]

ghost use Rattle.std.specs.Prelude.{◌≡◌, length};
ghost use Rattle.store_layout.specs.Store.{size_good, entries_of, Good};

use store_block::offsets::BLOCK_BYTES;

// Where a part of an entry lies in the store.
#[derive(Clone, Copy)]
pub struct EntryPart {
    pub start: usize,
    pub len: usize,
}

#[derive(Drop)]
pub struct Parts {
    pub key: EntryPart,
    pub version: EntryPart,
    pub tag: EntryPart,
    pub value: EntryPart,
    pub algorithm: u8,
}

// Why an entry isn't stored: no block is blank, or it fits none.
#[derive(Clone, Copy, Debug, PartialEq, Eq)]
pub enum PutError {
    Full,
    Unfit,
}

// Whether there are 1 to 128 whole blocks.
pub fn size_good(store: &[u8]) -> bool
    ensures { result ≡ size_good store.now }
{
    (BLOCK_BYTES..=65536).contains(&store.len()) && store.len() % BLOCK_BYTES == 0
}

// The number of used blocks.
pub fn count(store: &[u8]) -> usize
    ensures { Good store.now → result ≡ length (entries_of store.now) }
{
    let n = store.len() / BLOCK_BYTES;
    for i in 0..n {
        if store[i * BLOCK_BYTES] == 0 {
            return i;
        }
    }
    n
}
