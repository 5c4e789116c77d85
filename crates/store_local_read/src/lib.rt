// The local read of a lent store.
#![tactic(auto)]

ghost use Rattle.std.specs.Prelude.{◌≡◌, ◌+◌, ◌*◌, ◌<◌, length, get_or};
ghost use Rattle.store_block.specs.Entry.{no_entry};
ghost use Rattle.store_layout.specs.Store.{blocks_in, entries_of, Good};
ghost use Rattle.store_local_read.specs.Local.{answer_of, local_of, part_of};

use store_block::offsets::{BLOCK_BYTES, VALUE};
use store_layout::EntryPart;

// Refusal 2.
#[derive(Clone, Copy, Debug, PartialEq, Eq)]
pub struct StoreBad;

// Says where the value under a key lies in the store, if there is one.
pub fn local_find(store: &[u8], key: &[u8]) -> Result<Option<EntryPart>, StoreBad>
    ensures { answer_of result ≡ local_of store.now key.now }
{
    if !store_check::check(store) {
        return Err(StoreBad);
    }
    match store_find::find(store, key) {
        Ok(i) => Ok(Some(value_at(store, i))),
        Err(_) => Ok(None),
    }
}

// The value of the entry at a place: its block's bytes from 120 on.
fn value_at(store: &[u8], i: usize) -> EntryPart
    requires { Good store.now × (i < blocks_in store.now) }
    ensures { (result.start ≡ i * 512 + 120) × (result.len ≡ length (get_or (entries_of store.now) i no_entry).value) }
{
    let parts = store_find::entry_at(store, i);
    let value = parts.value;
    EntryPart {
        start: i * BLOCK_BYTES + VALUE,
        len: value.len,
    }
}

// The value under a key as a part of the lent store; empty where there is none, or the store is bad.
pub fn local_read<'a>(store: &'a [u8], key: &[u8]) -> &'a [u8]
    ensures { result.now ≡ part_of store.now (local_of store.now key.now) }
{
    match local_find(store, key) {
        Ok(Some(part)) => {
            let start = part.start;
            let end = start + part.len;
            &store[start..end]
        }
        Ok(None) => &store[0..0],
        Err(StoreBad) => &store[0..0],
    }
}
