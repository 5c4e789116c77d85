// Blocks moved within a store, by an order table.
#![tactic(auto)]

ghost use Rattle.std.specs.Prelude.{◌≡◌, ◌+◌, ◌*◌, ◌≤◌, ◌<◌, length, take, drop};
ghost use Rattle.store_order_table.specs.Table.{Names};
ghost use Rattle.store_arrange.specs.Moves.{Distinct, arranged};
ghost use Rattle.store_arrange.specs.Brought.{exchanged, renamed, Renamed, Brought};

use base_integers::as_usize::wide;
use store_block::offsets::BLOCK_BYTES;

// The 512 bytes from a on.
fn block_from(store: &[u8], a: usize) -> [u8; BLOCK_BYTES]
    requires { a + 512 ≤ length store.now }
    ensures { result ≡ take 512 (drop a store.now) }
{
    let mut b = [0u8; BLOCK_BYTES];
    let e = a + BLOCK_BYTES;
    store_block::copy(&mut b, 0, &store[a..e]);
    b
}

// Exchanges the 512 bytes from a on with those from b on. Each is copied out first: a loop over both in place does not run on vectors.
fn exchange(store: &mut [u8], a: usize, b: usize)
    requires { (a + 512 ≤ b) × (b + 512 ≤ length store.old) }
    ensures { store.new ≡ exchanged store.old a b }
{
    let x = block_from(store, a);
    let y = block_from(store, b);
    store_block::copy(store, a, &y);
    store_block::copy(store, b, &x);
}

// A number as it is after the blocks j and s were exchanged, s being no number that is still to come.
fn now_at(x: u8, j: u8, s: u8) -> u8
    ensures { result ≡ renamed j s x }
{
    if x == j {
        return s;
    }
    x
}

fn rename(order: &mut [u8], j: u8, s: u8)
    ensures { Renamed j s order.old order.new }
{
    for x in order.iter_mut() {
        *x = now_at(*x, j, s);
    }
}

// Brings the block s to the place j, and the block j to the place s.
fn bring(store: &mut [u8], order: &mut [u8], j: usize, s: usize)
    requires { (j ≤ s) × (s < 256) × (s * 512 + 512 ≤ length store.old) }
    ensures { Brought j s store.old store.new order.old order.new }
{
    if s == j {
        return;
    }
    exchange(store, j * BLOCK_BYTES, s * BLOCK_BYTES);
    rename(order, j as u8, s as u8);
}

// Puts the blocks of the first numbers of a table first, in its order, and makes all others blank.
pub fn arrange(store: &mut [u8], table: [u8; 128], used: usize)
    requires { (used ≤ 128) × (used * 512 ≤ length store.old) × Names store.old (take used table) × Distinct (take used table) }
    ensures { store.new ≡ arranged store.old (take used table) }
{
    let mut order = table;
    for j in 0..used {
        let s = wide(order[j]);
        bring(store, &mut order, j, s);
    }
    let a = used * BLOCK_BYTES;
    let n = store.len() - a;
    store_block::clear(store, a, n);
}
