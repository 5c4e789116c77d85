// The check of a lent store.
#![tactic(auto)]

ghost use Rattle.std.specs.Prelude.{◌≡◌, [], ◌*◌, length};
ghost use Rattle.store_block.specs.Decides.{Decides};
ghost use Rattle.store_layout.specs.Store.{blocks_in, store_good};
ghost use Rattle.store_layout.specs.Check.{GoodFrom};

use std::cmp::Ordering;
use store_block::offsets::{BLOCK_BYTES, KEY};

// Whether whole blocks meet every block rule, used ones first and their keys ascending.
fn blocks_good(store: &[u8]) -> bool
    requires { length store.now ≡ blocks_in store.now * 512 }
    ensures { Decides result (GoodFrom [] store.now (blocks_in store.now)) }
{
    let n = store.len() / BLOCK_BYTES;
    let mut last = &store[0..0];
    for i in 0..n {
        let a = i * BLOCK_BYTES;
        if store[a] == 0 {
            return store_block::zeros(&store[a..]);
        }
        let e = a + BLOCK_BYTES;
        if !store_block_codec::rules::good(&store[a..e]) {
            return false;
        }
        let ks = a + KEY;
        let ke = ks + base_integers::as_usize::wide(store[a + 1]);
        let key = &store[ks..ke];
        match store_block::compare(last, key) {
            Ordering::Less => {}
            Ordering::Equal => return false,
            Ordering::Greater => return false,
        }
        last = key;
    }
    true
}

// Whether 1 to 128 blocks meet every block rule; false is refusal 2.
pub fn check(store: &[u8]) -> bool
    ensures { result ≡ store_good store.now }
{
    if !store_layout::size_good(store) {
        return false;
    }
    blocks_good(store)
}
