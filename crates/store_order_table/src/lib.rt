// An order table: numbers of blocks in the order of their keys.
#![tactic(auto)]

ghost use Rattle.std.specs.Prelude.{◌≡◌, ◌∷◌, ◌-◌, ◌≤◌, ◌<◌, length, take, drop};
ghost use Rattle.store_block.specs.Over.{over};
ghost use Rattle.store_layout.specs.Entries.{find_in};
ghost use Rattle.store_layout.specs.Store.{Sorted};
ghost use Rattle.store_order_table.specs.Table.{entries_at, Names};

use base_integers::as_usize::wide;
use std::cmp::Ordering;
use store_block::offsets::{BLOCK_BYTES, KEY};

// The place of a key in a table, or as an error where it would go: each turn leaves at most half of the places.
pub fn find(store: &[u8], order: &[u8], key: &[u8]) -> Result<usize, usize>
    requires { Names store.now order.now × Sorted (entries_at store.now order.now) }
    ensures { result ≡ find_in key.now (entries_at store.now order.now) }
{
    // By hand: the library's search takes a closure that is safe at any number, and a table's own alone are known to name blocks.
    let mut lo: usize = 0;
    let mut hi = order.len();
    while lo < hi {
        let m = lo + (hi - lo) / 2;
        let a = wide(order[m]) * BLOCK_BYTES;
        let s = a + KEY;
        let e = s + wide(store[a + 1]);
        match store_block::compare(key, &store[s..e]) {
            Ordering::Less => hi = m,
            Ordering::Equal => return Ok(m),
            Ordering::Greater => lo = m + 1,
        }
    }
    Err(lo)
}

// Puts the number x in at place p; the others up to the place `used` move up.
pub fn insert(order: &mut [u8], used: usize, p: usize, x: u8)
    requires { (p ≤ used) × (used < length order.old) }
    ensures { order.new ≡ over order.old p (x ∷ take (used - p) (drop p order.old)) }
{
    order.copy_within(p..used, p + 1);
    order[p] = x;
}
