// What a program shows of a reply: a row with its status and counts, and lines under it with what its body and its value part have.
#![tactic(auto)]

pub mod columns;
mod contents;
mod status;
pub mod text;

ghost use Rattle.std.specs.Prelude.{◌<◌};

use crate::columns::{blanks, column, label, newline};
use crate::contents::{contents, inside};
use crate::status::{answer_text, status_name};
use crate::text::{sha1, under};
use program_words::{part, write, write_hex};
use std::io;

// A new table: its title, and the heads of its columns.
pub fn title(rt: &impl Print, said: &[u8]) -> io::Result<()> {
    newline(rt)?;
    write(rt, said)?;
    write(
        rt,
        b"\n    No.  Time   Who       Asked                                          ",
    )?;
    write(
        rt,
        b"Answer                        Taken Written Entries  Reply, or its SHA-1\n",
    )
}

// How a row begins: its number, and what was asked.
pub fn row(rt: &impl Print, number: u64, asked: &[u8]) -> io::Result<()> {
    column(rt, number)?;
    blanks(rt, 2)?;
    label(rt, asked, 64)
}

// The length of a reply's message.
fn message_length(reply: &[u8]) -> usize
    ensures { result < 65536 }
{
    if reply.len() < 9 {
        return 0;
    }
    usize::from(u16::from_be_bytes([reply[3], reply[4]]))
}

// The status code: the status is a reply's last field, and its code the last byte of that.
fn code_of(reply: &[u8]) -> u8 {
    let last = 8 + message_length(reply);
    reply.get(last).copied().unwrap_or(0)
}

// What a reply has in its body, and its value part.
fn lines(rt: &impl Print, reply: &[u8]) -> io::Result<()> {
    let n = message_length(reply);
    contents(rt, inside(inside(part(reply, 9, n), 7), 2))?;
    let end = 9 + n;
    if end < reply.len() {
        under(rt, b"value", &reply[end..])?;
    }
    Ok(())
}

// A reply of at most 24 bytes, or the digest of a longer one.
fn shortly(rt: &impl Print, reply: &[u8]) -> io::Result<()> {
    if reply.len() == 0 {
        return Ok(());
    }
    blanks(rt, 2)?;
    if reply.len() <= 24 {
        write_hex(rt, reply)
    } else {
        sha1(rt, reply)
    }
}

// The columns of counts, and the reply or its digest.
fn counts(rt: &impl Print, taken: usize, reply: &[u8], entries: usize) -> io::Result<()> {
    column(rt, taken as u64)?;
    blanks(rt, 1)?;
    column(rt, reply.len() as u64)?;
    blanks(rt, 1)?;
    column(rt, entries as u64)?;
    shortly(rt, reply)?;
    newline(rt)
}

// How a row ends whose call was refused.
pub fn refused(rt: &impl Print, said: &[u8], entries: usize) -> io::Result<()> {
    answer_text(rt, said)?;
    counts(rt, 0, b"", entries)
}

// How a row ends whose call was answered, and the lines under it.
pub fn answered(rt: &impl Print, taken: usize, reply: &[u8], entries: usize) -> io::Result<()> {
    answer_text(rt, status_name(code_of(reply)))?;
    counts(rt, taken, reply, entries)?;
    lines(rt, reply)
}
