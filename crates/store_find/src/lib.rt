// The entries of a lent store: where a key stands, and what stands at a place.
#![tactic(auto)]

ghost use Rattle.std.specs.Prelude.{◌≡◌};
ghost use Rattle.store_layout.specs.Entries.{Sought, EntryAt, no_parts};

use std::cmp::Ordering;
use store_block::offsets::{BLOCK_BYTES, KEY, TAG, VALUE, VERSION};
use store_layout::{EntryPart, Parts};

// The place of a key, or as an error where it would go, as a binary search answers.
pub fn find(store: &[u8], key: &[u8]) -> Result<usize, usize>
    ensures { Sought store.now key.now result }
{
    let n = store.len() / BLOCK_BYTES;
    for i in 0..n {
        let a = i * BLOCK_BYTES;
        if store[a] == 0 {
            return Err(i);
        }
        let s = a + KEY;
        let e = s + base_integers::as_usize::wide(store[a + 1]);
        match store_block::compare(key, &store[s..e]) {
            Ordering::Less => return Err(i),
            Ordering::Equal => return Ok(i),
            Ordering::Greater => {}
        }
    }
    Err(n)
}

// Where the parts of the entry at a place lie; empty parts where there is none.
pub fn entry_at(store: &[u8], i: usize) -> Parts
    ensures { EntryAt store.now i result }
{
    if store.len() / BLOCK_BYTES <= i {
        return no_parts();
    }
    let a = i * BLOCK_BYTES;
    let n = base_integers::as_usize::wide(store[a + 4]) * 256
        + base_integers::as_usize::wide(store[a + 5]);
    if 384 < n {
        return no_parts();
    }
    let k = base_integers::as_usize::wide(store[a + 1]);
    let v = base_integers::as_usize::wide(store[a + 2]);
    let t = base_integers::as_usize::wide(store[a + 3]);
    let key = EntryPart {
        start: a + KEY,
        len: k,
    };
    let version = EntryPart {
        start: a + VERSION,
        len: v,
    };
    let tag = EntryPart {
        start: a + TAG,
        len: t,
    };
    let value = EntryPart {
        start: a + VALUE,
        len: n,
    };
    let algorithm = store[a + 6];
    Parts {
        key,
        version,
        tag,
        value,
        algorithm,
    }
}

fn no_parts() -> Parts
    ensures { result ≡ no_parts }
{
    let p = EntryPart { start: 0, len: 0 };
    Parts {
        key: p,
        version: p,
        tag: p,
        value: p,
        algorithm: 0,
    }
}
