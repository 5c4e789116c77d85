// What the host does beside the calls.
use crate::{Host, Readings, Store, done};
use access_record::Record;
use program_reply::columns::newline;
use program_reply::text::sha1;
use program_reply::title;
use program_words::{first, number, part, rest, unhex, word, write};
use std::io;

fn room(rt: &impl Print, said: &[u8], host: Host) -> io::Result<Host> {
    let next = done(rt, rest(said), host)?;
    Ok(Host {
        room: number(said) as usize,
        ..next
    })
}

fn measured(rt: &impl Print, said: &[u8], readings: &mut Readings, host: Host) -> io::Result<Host> {
    unhex(word(said), readings);
    done(rt, rest(said), host)
}

fn overwrite_at(lent: &mut [u8], place: usize, b: u8) {
    if place < lent.len() {
        lent[place] = b;
    }
}

fn overwrite(rt: &impl Print, said: &[u8], lent: &mut [u8], host: Host) -> io::Result<Host> {
    let after = rest(said);
    let place = number(said) as usize;
    overwrite_at(lent, place, (number(after) % 256) as u8);
    done(rt, rest(after), host)
}

fn end(rt: &impl Print, store: &[u8], device: &Record, host: Host) -> io::Result<()> {
    write(rt, b"\nSHA-1 of the store          ")?;
    sha1(rt, part(store, 0, host.store))?;
    write(rt, b"\nSHA-1 of the device record  ")?;
    sha1(rt, device)?;
    newline(rt)
}

pub fn beside(
    rt: &impl Print,
    line: &[u8],
    store: &mut Store,
    device: &mut Record,
    readings: &mut Readings,
    host: Host,
) -> io::Result<Host> {
    let said = rest(line);
    match first(line) {
        b'o' => room(rt, said, host),
        b'm' => measured(rt, said, readings, host),
        b'b' => overwrite(rt, said, store, host),
        b'd' => overwrite(rt, said, device, host),
        b'#' => {
            title(rt, said)?;
            Ok(host)
        }
        b'e' => {
            end(rt, store, device, host)?;
            Ok(host)
        }
        _ => Ok(host),
    }
}
