// Bytes as text, or as their SHA-1.
use crate::columns::{blanks, newline};
use program_words::{part, write, write_hex};
use std::io;

fn glyph(rt: &impl Print, c: u8) -> io::Result<()> {
    if (32..=126).contains(&c) {
        write(rt, &[c])
    } else {
        print!(rt; "\\{c:02x}")
    }
}

// Bytes as text: of one that is no printable character, the hex.
pub fn text(rt: &impl Print, b: &[u8]) -> io::Result<()> {
    for c in b {
        glyph(rt, *c)?;
    }
    Ok(())
}

// The SHA-1 in hex.
pub fn sha1(rt: &impl Print, b: &[u8]) -> io::Result<()> {
    if let Some(s) = signature_sha1::sha1(b) {
        write_hex(rt, &signature_sha1::bytes(s))?;
    }
    Ok(())
}

fn shown(rt: &impl Print, b: &[u8]) -> io::Result<()> {
    if b.len() <= 64 {
        return text(rt, b);
    }
    text(rt, part(b, 0, 64))?;
    let n = b.len();
    print!(rt; " .. {n} bytes")
}

// A line under a row, with at most 64 bytes of what is shown; none for no bytes.
pub fn under(rt: &impl Print, name: &[u8], b: &[u8]) -> io::Result<()> {
    if b.len() == 0 {
        return Ok(());
    }
    blanks(rt, 26)?;
    write(rt, name)?;
    blanks(rt, 1)?;
    shown(rt, b)?;
    newline(rt)
}
