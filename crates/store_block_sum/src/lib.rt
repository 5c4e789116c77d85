// The sum of a block. The block is taken as eight rows of 64 bytes, so that the loops run on vectors of 16-bit numbers.
#![tactic(auto)]

ghost use Rattle.std.specs.Prelude.{◌≡◌, ◌<◌, ◌≤◌, length, take};
ghost use Rattle.store_block.specs.Block.{sum_from};
ghost use Rattle.store_block_sum.specs.Sum.{Column, Columns, last_four};

use base_integers::as_usize::wide;

fn short(x: u8) -> u16
    ensures { (result ≡ x) × (result < 256) }
{
    x as u16
}

// The bytes of a column: their sum, and the sum of each times the number of its row.
#[derive(Drop)]
struct Sums {
    all: u16,
    rows: u16,
}

fn column(b: &[u8], k: usize) -> Sums
    requires { (512 ≤ length b.now) × (k < 64) }
    ensures { Column b.now k result.all result.rows }
{
    let x7 = short(b[k + 448]);
    let x6 = x7 + short(b[k + 384]);
    let x5 = x6 + short(b[k + 320]);
    let x4 = x5 + short(b[k + 256]);
    let x3 = x4 + short(b[k + 192]);
    let x2 = x3 + short(b[k + 128]);
    let x1 = x2 + short(b[k + 64]);
    Sums {
        all: x1 + short(b[k]),
        rows: x7 + x6 + x5 + x4 + x3 + x2 + x1,
    }
}

// The sums of the columns, and then those by rows.
fn columns(b: &[u8]) -> [u16; 128]
    requires { 512 ≤ length b.now }
    ensures { Columns b.now 64 result }
{
    let mut c = [0u16; 128];
    for k in 0..64 {
        let x = column(b, k);
        c[k] = x.all;
        c[k + 64] = x.rows;
    }
    c
}

// What bytes 508 to 511 would add.
fn last(b: &[u8]) -> usize
    requires { 512 ≤ length b.now }
    ensures { result ≡ last_four b.now }
{
    let x = wide(b[508]) * 509 + wide(b[509]) * 510;
    x + wide(b[510]) * 511 + wide(b[511]) * 512
}

// The sum over bytes 0 to 507 of byte times (place + 1).
pub fn sum(b: &[u8]) -> u64
    requires { 512 ≤ length b.now }
    ensures { (result ≡ sum_from 0 (take 508 b.now)) × (result < 4294967296) }
{
    let c = columns(b);
    let mut s: u32 = 0;
    for k in 0..64 {
        s += (c[k] as u32) * ((k + 1) as u32) + (c[k + 64] as u32) * 64;
    }
    (s as usize - last(b)) as u64
}
