// The store's calls under C names, for the measurements in bench/ alone: no host links them. Each but the check itself checks the store first.
#![tactic(auto)]

ghost use Rattle.std.specs.Prelude.{◌≡◌, ℕ};
ghost use Rattle.store_block.specs.Decides.{Decides};
ghost use Rattle.store_block.specs.Entry.{entry, Sized};
ghost use Rattle.store_layout.specs.Store.{store_good};
ghost use Rattle.bench_store.specs.Calls.{find_of, left, put_of, delete_of};

use store_layout::PutError;

#[unsafe(no_mangle)]
pub extern "C" fn rt_check(store: &[u8]) -> bool
    ensures { result ≡ store_good store.now }
{
    store_check::check(store)
}

// The place of a key, or where it would go; 2^64 - 1 of a bad store.
#[unsafe(no_mangle)]
pub extern "C" fn rt_find(store: &[u8], key: &[u8]) -> usize
    ensures { result ≡ find_of store.now key.now }
{
    if !store_check::check(store) {
        return 18446744073709551615;
    }
    match store_find::find(store, key) {
        Ok(i) => i,
        Err(i) => i,
    }
}

// Whether the parts have room in a block.
fn sized(key: &[u8], version: &[u8], tag: &[u8], value: &[u8]) -> bool
    ensures { (a : ℕ) → Decides result (Sized (entry key.now version.now tag.now value.now a)) }
{
    if 64 < key.len() {
        return false;
    }
    if 16 < version.len() {
        return false;
    }
    if 32 < tag.len() {
        return false;
    }
    value.len() <= 384
}

// 0 stored, 1 no room, 2 an entry that fits no block, 3 a bad store.
#[unsafe(no_mangle)]
pub extern "C" fn rt_put(
    store: &mut [u8],
    key: &[u8],
    version: &[u8],
    tag: &[u8],
    value: &[u8],
    algorithm: u8,
) -> u32
    ensures { left result store.new ≡ put_of store.old
        (entry key.now version.now tag.now value.now algorithm) }
{
    if !store_check::check(store) {
        return 3;
    }
    if !sized(key, version, tag, value) {
        return 2;
    }
    match store_write::put::put(store, key, version, tag, value, algorithm) {
        Ok(()) => 0,
        Err(PutError::Full) => 1,
        Err(PutError::Unfit) => 2,
    }
}

// 0 deleted, 1 not found, 3 a bad store.
#[unsafe(no_mangle)]
pub extern "C" fn rt_delete(store: &mut [u8], key: &[u8]) -> u32
    ensures { left result store.new ≡ delete_of store.old key.now }
{
    if !store_check::check(store) {
        return 3;
    }
    if store_write::delete::delete(store, key) {
        0
    } else {
        1
    }
}
