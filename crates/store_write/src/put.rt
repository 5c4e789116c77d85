// An entry put into a lent store.
ghost use Rattle.std.specs.Prelude.{◌≡◌, ◌≤◌, length};
ghost use Rattle.store_block.specs.Entry.{entry, Sized};
ghost use Rattle.store_block.specs.Block.{BlockGood, decode};
ghost use Rattle.store_layout.specs.Store.{entries_of, Good};
ghost use Rattle.store_layout.specs.Entries.{put_answer, put_store};
ghost use Rattle.store_write.specs.Change.{insert_answer, insert_store};

use store_block::offsets::BLOCK_BYTES;
use store_find::find;
use store_layout::{PutError, count};

// Puts a block in at a place, if one is blank; those from there on move up.
fn insert(store: &mut [u8], i: usize, b: &[u8]) -> Result<(), PutError>
    requires { Good store.old × (BlockGood b.now × (i ≤ length (entries_of store.old))) }
    ensures value { result ≡ insert_answer store.old }
    ensures store_after { store.new ≡ insert_store store.old i (decode b.now) }
{
    let end = count(store) * BLOCK_BYTES;
    if store.len() <= end {
        return Err(PutError::Full);
    }
    let a = i * BLOCK_BYTES;
    store.copy_within(a..end, a + BLOCK_BYTES);
    store_block::copy(store, a, b);
    Ok(())
}

// Stores an entry: in place of the one under its key, or where its key goes.
pub fn put(
    store: &mut [u8],
    key: &[u8],
    version: &[u8],
    tag: &[u8],
    value: &[u8],
    algorithm: u8,
) -> Result<(), PutError>
    requires { Good store.old × Sized (entry key.now version.now tag.now value.now algorithm) }
    ensures value { result ≡ put_answer store.old (entry key.now version.now tag.now value.now algorithm) }
    ensures store_after { store.new ≡ put_store store.old
        (entry key.now version.now tag.now value.now algorithm) }
{
    let b = store_block_codec::make::make(key, version, tag, value, algorithm);
    if !store_block_codec::rules::good(&b) {
        return Err(PutError::Unfit);
    }
    match find(store, key) {
        Ok(i) => {
            let a = i * BLOCK_BYTES;
            store_block::copy(store, a, &b);
            Ok(())
        }
        Err(i) => insert(store, i, &b),
    }
}
