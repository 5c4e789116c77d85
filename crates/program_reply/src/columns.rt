// Numbers and words in columns.
use program_words::{part, write};
use std::io;

// At most 64 blanks.
pub fn blanks(rt: &impl Print, n: usize) -> io::Result<()> {
    let all = [b' '; 64];
    write(rt, part(&all, 0, n))
}

pub fn newline(rt: &impl Print) -> io::Result<()> {
    write(rt, b"\n")
}

// How many blanks stand before a number in seven places.
fn before(v: u64) -> usize {
    match v {
        0..=9 => 6,
        10..=99 => 5,
        100..=999 => 4,
        _ => 3,
    }
}

// A number below 10000 in seven places.
pub fn column(rt: &impl Print, v: u64) -> io::Result<()> {
    blanks(rt, before(v))?;
    print!(rt; "{v}")
}

// Words in so many places, at most 64.
pub fn label(rt: &impl Print, b: &[u8], places: usize) -> io::Result<()> {
    write(rt, b)?;
    if b.len() < places {
        blanks(rt, places - b.len())?;
    }
    Ok(())
}
