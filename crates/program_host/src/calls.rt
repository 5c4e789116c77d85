// Format, Connect and the local read.
use crate::slots::{Slots, keep};
use crate::{Host, Store, row};
use access_record::Record;
use base_integers::signed;
use device_format::FormatError;
use program_reply::text::under;
use program_words::{number, part, rest, unhex, word, write};
use std::io;
use store_layout::EntryPart;
use store_local_read::StoreBad;

fn made(rt: &impl Print, r: Result<(), FormatError>) -> io::Result<()> {
    match r {
        Ok(()) => write(rt, b"made\n"),
        Err(FormatError::StoreBad) => write(rt, b"refusal 2 STORE_BAD\n"),
        Err(FormatError::KeyBad) => write(rt, b"refusal 6 KEY_BAD\n"),
    }
}

fn make(
    rt: &impl Print,
    store: &mut [u8],
    n: usize,
    device: &mut Record,
    key: &[u8],
) -> io::Result<()> {
    let mut bytes = [0u8; 4096];
    let k = unhex(key, &mut bytes);
    if n <= store.len() {
        let r = device_format::format(&mut store[0..n], device, part(&bytes, 0, k));
        made(rt, r)?;
    }
    Ok(())
}

pub fn format(
    rt: &impl Print,
    said: &[u8],
    store: &mut Store,
    device: &mut Record,
    host: Host,
) -> io::Result<Host> {
    let after = rest(said);
    let n = number(said) as usize;
    let next = row(rt, rest(after), host)?;
    make(rt, store, n, device, word(after))?;
    Ok(Host { store: n, ..next })
}

pub fn connect(rt: &impl Print, said: &[u8], slots: &mut Slots, host: Host) -> io::Result<Host> {
    let after = rest(said);
    let last = rest(after);
    let slot = number(said);
    let c = protocol_connection::connect(signed(number(after)), number(last) == 1);
    keep(slots, slot, c);
    let next = row(rt, rest(last), host)?;
    write(rt, b"connected\n")?;
    Ok(next)
}

fn shown_as(rt: &impl Print, r: Result<Option<EntryPart>, StoreBad>) -> io::Result<()> {
    match r {
        Ok(Some(_)) => write(rt, b"found\n"),
        Ok(None) => write(rt, b"not found\n"),
        Err(StoreBad) => write(rt, b"refusal 2 STORE_BAD\n"),
    }
}

fn show_local(rt: &impl Print, store: &[u8], key: &[u8]) -> io::Result<()> {
    shown_as(rt, store_local_read::local_find(store, key))?;
    under(rt, b"value", store_local_read::local_read(store, key))
}

pub fn local_read(rt: &impl Print, said: &[u8], store: &[u8], host: Host) -> io::Result<Host> {
    let mut key = [0u8; 4096];
    let n = unhex(word(said), &mut key);
    let next = row(rt, rest(said), host)?;
    show_local(rt, part(store, 0, host.store), part(&key, 0, n))?;
    Ok(next)
}
