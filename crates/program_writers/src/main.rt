// Writes messages and prints their bytes in hex, one to a line.
#![tactic(auto)]

ghost use Rattle.std.specs.Prelude.{◌≡◌, ◌+◌, ◌≤◌, length};

use fields_write_bytes_field::push_raw;
use fields_write_field::{push_head, push_int};
use fields_write_optional::{push_maybe, push_nonempty, push_nonzero};
use program_words::write_hex;
use std::io;

fn show(rt: &impl Print, b: &[u8]) -> io::Result<()> {
    write_hex(rt, b)?;
    rt.write_all(b"\n")
}

// Field 1, a number.
fn number(rt: &impl Print, v: u64) -> io::Result<()> {
    let mut out = [0u8; 64];
    let a = push_int(&mut out, 64, 1, v);
    show(rt, &out[a..])
}

// Field 2, bytes.
fn text(rt: &impl Print, b: &[u8; 7]) -> io::Result<()> {
    let mut out = [0u8; 64];
    let a = push_raw(&mut out, 64, 2, b);
    show(rt, &out[a..])
}

// Field 3, a message with a number in field 1.
fn embedded(rt: &impl Print, v: u64) -> io::Result<()> {
    let mut out = [0u8; 64];
    let a = push_int(&mut out, 64, 1, v);
    let b = push_head(&mut out, a, 3, 64 - a);
    show(rt, &out[b..])
}

// The reply to NOOP: connection 1, sequence 2.
fn noop_response(rt: &impl Print) -> io::Result<()> {
    let mut out = [0u8; 128];
    let a = push_int(&mut out, 128, 1, 1);
    let b = push_head(&mut out, a, 3, 128 - a);
    let c = push_int(&mut out, b, 7, 29);
    let d = push_maybe(&mut out, c, 6, Some(2));
    let e = push_int(&mut out, d, 3, 1);
    let f = push_head(&mut out, e, 1, b - e);
    show(rt, &out[f..])
}

// A body with the keyValue of a found entry.
fn found(out: &mut [u8], at: usize, key: &[u8], version: &[u8], tag: &[u8], algorithm: u64) -> usize
    requires { (300 ≤ at) × (at ≤ length out.old) × (length key.now ≤ 64) × (length version.now ≤ 16) × (length tag.now ≤ 32) }
    ensures { (result ≤ at) × (at ≤ result + 200) × (length out.new ≡ length out.old) }
{
    let a = push_nonzero(out, at, 6, algorithm);
    let b = push_nonempty(out, a, 5, tag);
    let c = push_nonempty(out, b, 4, version);
    let d = push_nonempty(out, c, 3, key);
    push_head(out, d, 1, at - d)
}

// The reply to GET: connection 1, sequence 3. Empty bytes and algorithm 0 are left out.
fn get_response(
    rt: &impl Print,
    key: &[u8],
    version: &[u8],
    tag: &[u8],
    algorithm: u64,
) -> io::Result<()> {
    let mut out = [0u8; 512];
    if key.len() <= 64 && version.len() <= 16 && tag.len() <= 32 {
        let a = push_int(&mut out, 512, 1, 1);
        let b = push_head(&mut out, a, 3, 512 - a);
        let c = found(&mut out, b, key, version, tag, algorithm);
        let d = push_head(&mut out, c, 2, b - c);
        let e = push_int(&mut out, d, 7, 1);
        let f = push_int(&mut out, e, 6, 3);
        let g = push_int(&mut out, f, 3, 1);
        let h = push_head(&mut out, g, 1, d - g);
        show(rt, &out[h..])?;
    }
    Ok(())
}

// Connection 1, code 20.
fn closing(rt: &impl Print) -> io::Result<()> {
    let mut out = [0u8; 64];
    let a = push_int(&mut out, 64, 1, 20);
    let b = push_head(&mut out, a, 3, 64 - a);
    let c = push_int(&mut out, b, 3, 1);
    let d = push_head(&mut out, c, 1, b - c);
    show(rt, &out[d..])
}

fn main(rt: HostRuntime) -> io::Result<()> {
    number(&rt, 150)?;
    text(&rt, b"testing")?;
    embedded(&rt, 150)?;
    number(&rt, u64::MAX - 1)?;
    number(&rt, u64::MAX)?;
    number(&rt, 0)?;
    number(&rt, 127)?;
    number(&rt, 128)?;
    number(&rt, (1 << 63) - 1)?;
    number(&rt, 1 << 63)?;
    noop_response(&rt)?;
    get_response(&rt, b"k", b"v1", b"\x01\x02\x03\x04", 4)?;
    get_response(&rt, b"k", b"", b"", 0)?;
    closing(&rt)
}
