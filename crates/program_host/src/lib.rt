// The host of a day at a site: what it keeps and lends, and each of its events but the sending of a message (program_site lists them).
#![tactic(auto)]

mod beside;
mod calls;
mod rescue;
pub mod slots;

use crate::beside::beside;
use crate::calls::{connect, format, local_read};
use crate::rescue::rescue;
use crate::slots::Slots;
use access_record::Record;
use program_words::{first, rest, write};
use std::io;

// How much is lent of the store and of the reply buffer, and the number of the last row.
#[derive(Clone, Copy)]
pub struct Host {
    pub store: usize,
    pub room: usize,
    pub row: u64,
}

pub type Store = [u8; 65536];

pub type Readings = [u8; 134];

fn number_after(row: u64) -> u64 {
    if row < 999999 { row + 1 } else { 0 }
}

// Begins the next row.
pub fn row(rt: &impl Print, asked: &[u8], host: Host) -> io::Result<Host> {
    let next = number_after(host.row);
    program_reply::row(rt, next, asked)?;
    Ok(Host { row: next, ..host })
}

// A row of what the host does beside the calls.
fn done(rt: &impl Print, asked: &[u8], host: Host) -> io::Result<Host> {
    let next = row(rt, asked, host)?;
    write(rt, b"done\n")?;
    Ok(next)
}

// An event in which no message is sent.
pub fn event(
    rt: &impl Print,
    line: &[u8],
    store: &mut Store,
    device: &mut Record,
    readings: &mut Readings,
    slots: &mut Slots,
    host: Host,
) -> io::Result<Host> {
    let said = rest(line);
    match first(line) {
        b'f' => format(rt, said, store, device, host),
        b'c' => connect(rt, said, slots, host),
        b'l' => local_read(rt, said, store, host),
        b'r' => rescue(rt, said, store, host),
        _ => beside(rt, line, store, device, readings, host),
    }
}
