// Lines of text that programs read and write: words, numbers in decimal, bytes in hex.
#![tactic(auto)]

ghost use Rattle.std.specs.Prelude.{◌≡◌, ◌<◌, ◌≤◌, ◌+◌, ◌/◌, min, length, take, IfOk};
ghost use Rattle.std.specs.Io.KnownBytes.{Consumes, IsAtEnd};

use std::io;
use std::io::Read;

// The place of the first byte b, or the end.
pub fn place_of(s: &[u8], b: u8, from: usize) -> usize
    requires { from ≤ length s.now }
    ensures { (from ≤ result) × (result ≤ length s.now) }
{
    match s[from..].iter().position(|x| *x == b) {
        Some(n) => from + n,
        None => s.len(),
    }
}

// A part of s; nothing of it where there is no such part.
pub fn part(s: &[u8], start: usize, len: usize) -> &[u8] {
    if start <= s.len() && len <= s.len() - start {
        &s[start..start + len]
    } else {
        &[]
    }
}

// The first letter of s.
pub fn first(s: &[u8]) -> u8 {
    s.first().copied().unwrap_or(0)
}

// The first word of s.
pub fn word(s: &[u8]) -> &[u8] {
    &s[..place_of(s, b' ', 0)]
}

// What follows the first word.
pub fn rest(s: &[u8]) -> &[u8] {
    let end = place_of(s, b' ', 0);
    if end < s.len() { &s[end + 1..] } else { &[] }
}

fn digit(c: u8) -> u8
    ensures { result < 16 }
{
    match c {
        b'0'..=b'9' => c - b'0',
        b'a'..=b'f' => c - b'a' + 10,
        _ => 0,
    }
}

// The first word of s, in decimal; the digits of one above 10^17 are left out.
pub fn number(s: &[u8]) -> u64 {
    let mut v: u64 = 0;
    for c in word(s) {
        if 100_000_000_000_000_000 < v {
            return v;
        }
        v = v * 10 + u64::from(digit(*c));
    }
    v
}

// The byte of two digits in hex.
fn byte_at(s: &[u8], at: usize) -> u8
    requires { at + 1 < length s.now }
{
    digit(s[at]) * 16 + digit(s[at + 1])
}

// The bytes of a word in hex, as many as out has room for, and how many there are.
pub fn unhex(s: &[u8], out: &mut [u8]) -> usize
    ensures { result ≡ min (length s.now / 2) (length out.new) }
{
    let n = (s.len() / 2).min(out.len());
    for i in 0..n {
        out[i] = byte_at(s, 2 * i);
    }
    n
}

// Reads until out is full or the input ends, and gives how many bytes were read.
pub fn read_full<R: Read>(input: &mut R, out: &mut [u8]) -> io::Result<usize>
    ensures room { IfOk result (λ n. n ≤ length out.new) }
    ensures read { IfOk result (λ n. Consumes (R.remaining input.old) (R.remaining input.new) (take n out.new)) }
    ensures full { IfOk result (λ n. n < length out.new → IsAtEnd (R.remaining input.new)) }
{
    // A while: how far a read gets, only the read says.
    let mut done = 0;
    while done < out.len() {
        let n = input.read(&mut out[done..])?;
        if n == 0 {
            break;
        }
        done += n;
    }
    Ok(done)
}

pub fn write(rt: &impl Print, b: &[u8]) -> io::Result<()> {
    rt.write_all(b)
}

// Writes bytes in hex.
pub fn write_hex(rt: &impl Print, b: &[u8]) -> io::Result<()> {
    for byte in b {
        print!(rt; "{byte:02x}")?;
    }
    Ok(())
}
