// What the body of a reply has, a line for each part.
ghost use Rattle.std.specs.Prelude.{◌-◌, length};
ghost use Rattle.std.specs.Iterator.{at_most};

use crate::columns::{blanks, newline};
use crate::text::{text, under};
use fields_wire_reader::{Found, Held, read_field};
use program_words::{part, write};
use std::io;

// The bytes of a field of wire type 2; none for a field of another.
fn bytes_of(s: &[u8], f: Found) -> &[u8] {
    match f.held {
        Held::Len { start, len } => part(s, start, len),
        _ => &[],
    }
}

// The fields of a message from a place on, up to what is none.
#[derive(Drop)]
struct Walk<'a> {
    s: &'a [u8],
    at: usize,
}

impl<'a> Iterator for Walk<'a> {
    type Item = Found;

    ghost remaining = { λ f. at_most (length f.s.now - f.at) };

    fn next(&mut self) -> Option<Found> {
        let f = read_field(self.s, self.at)?;
        self.at = f.next;
        Some(f)
    }
}

fn fields_of(s: &[u8]) -> Walk<'_> {
    Walk { s, at: 0 }
}

// The bytes of the first field of number n.
pub fn inside(s: &[u8], n: u64) -> &[u8] {
    match fields_of(s).find(|f| f.number == n) {
        Some(f) => bytes_of(s, f),
        None => &[],
    }
}

// The bits of a float, the highest first.
fn bits(rt: &impl Print, b: &[u8]) -> io::Result<()> {
    for byte in b.iter().rev() {
        print!(rt; "{byte:02x}")?;
    }
    Ok(())
}

// A number in decimal, bytes as text, a float as its bits.
fn field(rt: &impl Print, s: &[u8], f: Found) -> io::Result<()> {
    blanks(rt, 1)?;
    match f.held {
        Held::Varint(value) => print!(rt; "{value}"),
        Held::Len { start, len } => text(rt, part(s, start, len)),
        Held::I32 { start } => bits(rt, part(s, start, 4)),
        Held::I64 { .. } => write(rt, b"?"),
    }
}

// The fields of a message that holds no message.
fn fields(rt: &impl Print, s: &[u8]) -> io::Result<()> {
    for f in fields_of(s) {
        field(rt, s, f)?;
    }
    Ok(())
}

// A line under a row, with the fields of a message.
fn line(rt: &impl Print, name: &[u8], s: &[u8]) -> io::Result<()> {
    blanks(rt, 26)?;
    write(rt, name)?;
    fields(rt, s)?;
    newline(rt)
}

fn log_line(rt: &impl Print, number: u64, s: &[u8]) -> io::Result<()> {
    match number {
        2 => line(rt, b"utilization", s),
        3 => line(rt, b"temperature", s),
        4 => line(rt, b"capacity", s),
        8 => line(rt, b"limits", s),
        _ => line(rt, b"?", s),
    }
}

fn log_part(rt: &impl Print, log: &[u8], f: Found) -> io::Result<()> {
    if let Held::Len { start, len } = f.held {
        log_line(rt, f.number, part(log, start, len))?;
    }
    Ok(())
}

// A line for each part of a log.
fn log(rt: &impl Print, s: &[u8]) -> io::Result<()> {
    for f in fields_of(s) {
        log_part(rt, s, f)?;
    }
    Ok(())
}

// The key and version of a keyValue, the keys of a range and the parts of a log, where a body has them.
pub fn contents(rt: &impl Print, body: &[u8]) -> io::Result<()> {
    let pair = inside(body, 1);
    under(rt, b"key", inside(pair, 3))?;
    under(rt, b"version", inside(pair, 4))?;
    let range = inside(body, 2);
    if 0 < range.len() {
        line(rt, b"keys", range)?;
    }
    log(rt, inside(body, 6))
}
