// An entry deleted from a lent store.
ghost use Rattle.std.specs.Prelude.{◌≡◌, ◌<◌, length};
ghost use Rattle.store_layout.specs.Store.{blocks_in, bytes_of, entries_of, Good};
ghost use Rattle.store_layout.specs.Splices.{remove_at};
ghost use Rattle.store_layout.specs.Entries.{delete_answer, delete_store};

use store_block::offsets::BLOCK_BYTES;
use store_find::find;
use store_layout::count;

// Takes the block at a place out; those behind it move down, and the last used one becomes blank.
fn remove(store: &mut [u8], i: usize)
    requires { Good store.old × (i < length (entries_of store.old)) }
    ensures { store.new ≡ bytes_of (blocks_in store.old) (remove_at i (entries_of store.old)) }
{
    let end = count(store) * BLOCK_BYTES;
    let last = end - BLOCK_BYTES;
    let a = i * BLOCK_BYTES;
    store.copy_within(a + BLOCK_BYTES..end, a);
    store_block::clear(store, last, BLOCK_BYTES);
}

// Removes the entry under a key, and says whether there was one; its room is used again.
pub fn delete(store: &mut [u8], key: &[u8]) -> bool
    requires { Good store.old }
    ensures value { result ≡ delete_answer store.old key.now }
    ensures store_after { store.new ≡ delete_store store.old key.now }
{
    match find(store, key) {
        Ok(i) => {
            remove(store, i);
            true
        }
        Err(_) => false,
    }
}
