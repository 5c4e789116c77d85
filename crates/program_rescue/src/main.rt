// Rescues stores that are damaged. Each line of the input is an event, and each rescue writes a line: its label, its number (0 or the refusal's), the report
// in hex and the SHA-1 of the lent store after it. tests/rescue.py makes the events, and works out what is to be written.
//
//   store LENGTH           from now on so many zero bytes are lent
//   bytes PLACE HEX        bytes of the lent store are overwritten
//   keep                   the store as it is now is kept
//   again                  the store is again what was kept
//   rescue LENGTH LABEL    the rescue, with a report of so many bytes, each 255 before
#![tactic(auto)]

use program_reply::text::sha1;
use program_words::{first, number, part, read_full, rest, unhex, word, write, write_hex};
use std::io;
use store_rescue::rule::RescueError;

// Room for 129 blocks: one more than a store may have.
type Room = [u8; 66048];

fn number_of(r: Result<(), RescueError>) -> u64 {
    match r {
        Ok(()) => 0,
        Err(RescueError::StoreBad) => 2,
        Err(RescueError::ReportBad) => 8,
    }
}

fn show(rt: &impl Print, label: &[u8], r: u64, report: &[u8], store: &[u8]) -> io::Result<()> {
    write(rt, label)?;
    print!(rt; ": {r} ")?;
    write_hex(rt, report)?;
    write(rt, b" ")?;
    sha1(rt, store)?;
    write(rt, b"\n")
}

fn rescued(rt: &impl Print, label: &[u8], store: &mut [u8], report: &mut [u8]) -> io::Result<()> {
    let r = store_rescue::rescue::rescue(store, report);
    show(rt, label, number_of(r), report, store)
}

// The rescue over what is lent.
fn rescue(rt: &impl Print, said: &[u8], room: &mut [u8], length: usize) -> io::Result<()> {
    let mut reports = [255u8; 256];
    let n = number(said) as usize;
    if length <= room.len() && n <= 256 {
        rescued(rt, rest(said), &mut room[0..length], &mut reports[0..n])?;
    }
    Ok(())
}

fn overwrite(said: &[u8], room: &mut [u8]) {
    let at = number(said) as usize;
    if at <= room.len() {
        unhex(word(rest(said)), &mut room[at..]);
    }
}

// Plays an event, and gives how many bytes are lent after it.
fn event(
    rt: &impl Print,
    line: &[u8],
    room: &mut Room,
    kept: &mut Room,
    length: usize,
) -> io::Result<usize> {
    let said = rest(line);
    match first(line) {
        b's' => {
            *room = [0u8; 66048];
            return Ok(number(said) as usize);
        }
        b'b' => overwrite(said, room),
        b'k' => *kept = *room,
        b'a' => *room = *kept,
        b'r' => rescue(rt, said, room, length)?,
        _ => {}
    }
    Ok(length)
}

fn events(rt: &impl Print, s: &[u8], room: &mut Room, kept: &mut Room) -> io::Result<()> {
    let mut length = 0;
    for line in s.split(|b| *b == b'\n') {
        length = event(rt, line, room, kept, length)?;
    }
    Ok(())
}

fn main(rt: HostRuntime) -> io::Result<()> {
    let mut room = [0u8; 66048];
    let mut kept = [0u8; 66048];
    let mut s = [0u8; 131072];
    let n = read_full(&mut rt.reader(), &mut s)?;
    events(&rt, part(&s, 0, n), &mut room, &mut kept)
}
