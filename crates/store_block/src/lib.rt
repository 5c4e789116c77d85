// Entries in blocks of 512 bytes: the order of keys, and bytes compared, copied and tested for zero.
#![tactic(auto)]

pub mod offsets;

ghost use Rattle.std.specs.Prelude.{◌≡◌, ◌+◌, ◌<◌, ◌≤◌, length, drop, replicate};
ghost use Rattle.store_block.specs.Order.{cmp};
ghost use Rattle.store_block.specs.Word.{word_at};
ghost use Rattle.store_block.specs.Decides.{Decides};
ghost use Rattle.store_block.specs.Over.{over};
ghost use Rattle.store_block.specs.Direct.{ored};

use std::cmp::Ordering;

// Four bytes from i on as a number, the first byte the highest.
fn word(s: &[u8], i: usize) -> u32
    requires { i + 4 ≤ length s.now }
    ensures { result ≡ word_at 4 s.now i }
{
    u32::from_be_bytes([s[i], s[i + 1], s[i + 2], s[i + 3]])
}

// How a from i on stands to b from i on, byte by byte.
fn compare_from(a: &[u8], b: &[u8], from: usize) -> Ordering
    requires { (from ≤ length a.now) × (from ≤ length b.now) }
    ensures { result ≡ cmp (drop from a.now) (drop from b.now) }
{
    let both = a.len().min(b.len());
    for i in from..both {
        let x = a[i];
        let y = b[i];
        if x != y {
            return x.cmp(&y);
        }
    }
    a.len().cmp(&b.len())
}

// How the key a stands to the key b: four bytes at a time, as big-endian numbers stand as their bytes do.
pub fn compare(a: &[u8], b: &[u8]) -> Ordering
    ensures { result ≡ cmp a.now b.now }
{
    let words = a.len().min(b.len()) / 4;
    for k in 0..words {
        let i = 4 * k;
        let x = word(a, i);
        let y = word(b, i);
        if x != y {
            return x.cmp(&y);
        }
    }
    compare_from(a, b, 4 * words)
}

// Writes src into out from the byte at on.
pub fn copy(out: &mut [u8], at: usize, src: &[u8])
    requires { at + length src.now ≤ length out.old }
    ensures { out.new ≡ over out.old at src.now }
{
    out[at..at + src.len()].copy_from_slice(src);
}

// The bytes ored.
fn ored(s: &[u8]) -> u8
    ensures { result ≡ ored 0 s.now }
{
    s.iter().fold(0, |o, b| o | *b)
}

// Whether every byte is zero: one pass with no early exit.
pub fn zeros(s: &[u8]) -> bool
    ensures { Decides result (s.now ≡ replicate (length s.now) 0) }
{
    ored(s) == 0
}

// Sets n bytes from a on to zero.
pub fn clear(out: &mut [u8], a: usize, n: usize)
    requires { a + n ≤ length out.old }
    ensures { out.new ≡ over out.old a (replicate n 0) }
{
    out[a..a + n].fill(0);
}
