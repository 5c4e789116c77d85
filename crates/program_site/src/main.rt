// A day at a site, played over the calls of the box. Each line of the input is an event, each row that is written says what the box answered.
// tests/site.py makes the events, and works out what is to be written by a model of its own (conformance/model.py).
//
//   # TITLE                                a new table
//   format LENGTH KEY LABEL                Format, over so many bytes of the store
//   connect SLOT NUMBER PROTECTED LABEL    Connect; the connection is kept in one of eight slots
//   send SLOT INPUT LABEL                  the answering call
//   local KEY LABEL                        the local read
//   rescue LABEL                           the rescue, with a report of one byte for each block
//   out LENGTH LABEL                       from now on so many bytes of the reply buffer are lent
//   measured READINGS LABEL                from now on these readings are lent; before the first, 134 zero bytes
//   block PLACE BYTE LABEL                 a byte of the lent store is overwritten
//   device PLACE BYTE LABEL                a byte of the device record is overwritten
//   end                                    the digests of store and device record
//
// KEY and INPUT are hex, or - for no bytes; READINGS are 134 bytes in hex; the other words are decimal.
#![tactic(auto)]

use access_record::Record;
use access_record::offsets::RECORD_BYTES;
use device::{Answered, Refusal};
use program_host::slots::{Slots, connection_at, keep};
use program_host::{Host, Readings, Store, row};
use program_reply::{answered, refused};
use program_words::{first, number, part, read_full, rest, unhex, word};
use protocol_connection::{Connection, connect};
use std::io;

// How many entries the lent store has.
fn entries(store: &[u8], host: Host) -> usize {
    store_layout::count(part(store, 0, host.store))
}

// What is said of a refusal.
fn refusal_name(refusal: Refusal) -> &'static [u8] {
    match refusal {
        Refusal::OutShort => b"refusal 1 OUT_SHORT",
        Refusal::StoreBad => b"refusal 2 STORE_BAD",
        Refusal::DeviceBad => b"refusal 3 DEVICE_BAD",
        Refusal::Closed => b"refusal 4 CLOSED",
        Refusal::More => b"refusal 5 MORE",
        Refusal::ReadingsBad => b"refusal 7 READINGS_BAD",
    }
}

// Shows a response, and gives the connection after it.
fn show(
    rt: &impl Print,
    a: Result<Answered, Refusal>,
    c: Connection,
    out: &[u8],
    entries: usize,
) -> io::Result<Connection> {
    match a {
        Ok(a) => {
            answered(rt, a.taken, part(out, 0, a.written), entries)?;
            Ok(a.connection)
        }
        Err(refusal) => {
            refused(rt, refusal_name(refusal), entries)?;
            Ok(c)
        }
    }
}

// The answering call over what is lent; a question mark stands for more than there is to lend.
fn ask(
    rt: &impl Print,
    store: &mut [u8],
    device: &mut Record,
    readings: &[u8],
    c: Connection,
    input: &[u8],
    out: &mut [u8],
    host: Host,
) -> io::Result<Connection> {
    let n = host.store;
    let room = host.room;
    if n <= store.len() && room <= out.len() {
        let a = device::answer(
            &mut store[0..n],
            device,
            readings,
            c,
            input,
            &mut out[0..room],
        );
        return show(rt, a, c, out, entries(store, host));
    }
    refused(rt, b"?", entries(store, host))?;
    Ok(c)
}

// Sends bytes in hex, shows what was answered, and gives the connection after it.
fn exchange(
    rt: &impl Print,
    sent: &[u8],
    store: &mut Store,
    device: &mut Record,
    readings: &Readings,
    c: Connection,
    host: Host,
) -> io::Result<Connection> {
    let mut input = [0u8; 4096];
    let mut out = [0u8; 4096];
    let n = unhex(sent, &mut input);
    ask(
        rt,
        store,
        device,
        readings,
        c,
        part(&input, 0, n),
        &mut out,
        host,
    )
}

fn send(
    rt: &impl Print,
    said: &[u8],
    store: &mut Store,
    device: &mut Record,
    readings: &Readings,
    slots: &mut Slots,
    host: Host,
) -> io::Result<Host> {
    let after = rest(said);
    let slot = number(said);
    let next = row(rt, rest(after), host)?;
    let c = connection_at(slots, slot);
    let c = exchange(rt, word(after), store, device, readings, c, host)?;
    keep(slots, slot, c);
    Ok(next)
}

fn event(
    rt: &impl Print,
    line: &[u8],
    store: &mut Store,
    device: &mut Record,
    readings: &mut Readings,
    slots: &mut Slots,
    host: Host,
) -> io::Result<Host> {
    if first(line) == b's' {
        return send(rt, rest(line), store, device, readings, slots, host);
    }
    program_host::event(rt, line, store, device, readings, slots, host)
}

fn day(
    rt: &impl Print,
    s: &[u8],
    store: &mut Store,
    device: &mut Record,
    readings: &mut Readings,
    slots: &mut Slots,
) -> io::Result<()> {
    let mut host = Host {
        store: 0,
        room: 4096,
        row: 0,
    };
    for line in s.split(|b| *b == b'\n') {
        host = event(rt, line, store, device, readings, slots, host)?;
    }
    Ok(())
}

fn main(rt: HostRuntime) -> io::Result<()> {
    let mut store = [0u8; 65536];
    let mut device = [0u8; RECORD_BYTES];
    let mut readings = [0u8; 134];
    let mut slots = [connect(0, false); 8];
    let mut s = [0u8; 131072];
    let n = read_full(&mut rt.reader(), &mut s)?;
    day(
        &rt,
        part(&s, 0, n),
        &mut store,
        &mut device,
        &mut readings,
        &mut slots,
    )
}
