// Reads messages, one to a line of its input: the kind and the bytes in hex. Prints the listed fields of each, or 'refused'.
#![tactic(auto)]

use fields_decode::nested::reads;
use fields_rule::{Refusal, judge};
use fields_schema::Kind;
use fields_value::Taken;
use fields_wire_reader::read_field;
use program_words::{part, read_full, unhex, write, write_hex};
use std::io;

fn show_number(rt: &impl Print, v: u64) -> io::Result<()> {
    let x = v.cast_signed();
    print!(rt; "{x}")
}

// A field that is no message, or where one begins.
fn show_plain(rt: &impl Print, s: &[u8], number: usize, what: &Taken) -> io::Result<()> {
    print!(rt; "{number}")?;
    match what {
        Taken::Number(v) => {
            write(rt, b"=")?;
            show_number(rt, *v)?;
            write(rt, b";")
        }
        Taken::Slice { start, len } => {
            write(rt, b":")?;
            write_hex(rt, part(s, *start, *len))?;
            write(rt, b";")
        }
        Taken::Fixed { start } => {
            write(rt, b"#")?;
            write_hex(rt, part(s, *start, 4))?;
            write(rt, b";")
        }
        Taken::Inside { .. } => write(rt, b"{"),
    }
}

// The listed fields of a message that decodes, `depth` messages deep at most.
#[cycle(show_show_field)]
fn show(rt: &impl Print, s: &[u8], kind: Kind, depth: usize) -> io::Result<()> {
    let mut at = 0;
    while let Some(f) = read_field(s, at) {
        match judge(kind, 0, Some(f)) {
            Ok(Some(t)) => show_field(rt, s, t.number, t.what, depth)?,
            Ok(None) => {}
            Err(Refusal::Wrong { number, .. }) => print!(rt; "{number}?")?,
            Err(Refusal::Never) => return Ok(()),
        }
        at = f.next;
    }
    Ok(())
}

#[cycle(show_show_field)]
fn show_field(
    rt: &impl Print,
    s: &[u8],
    number: usize,
    what: Taken,
    depth: usize,
) -> io::Result<()> {
    show_plain(rt, s, number, &what)?;
    if let Taken::Inside { kind, start, len } = what {
        if 0 < depth {
            show(rt, part(s, start, len), kind, depth - 1)?;
        }
        write(rt, b"}")?;
    }
    Ok(())
}

fn message(rt: &impl Print, s: &[u8], kind: Kind) -> io::Result<()> {
    if reads(s, kind) {
        show(rt, s, kind, 5)?;
    } else {
        write(rt, b"refused")?;
    }
    write(rt, b"\n")
}

fn kind_of(b: u8) -> Kind {
    match b {
        0 => Kind::Message,
        1 => Kind::HmacAuth,
        2 => Kind::Command,
        3 => Kind::Header,
        4 => Kind::Body,
        5 => Kind::KeyValue,
        6 => Kind::Range,
        7 => Kind::Setup,
        8 => Kind::Security,
        9 => Kind::Acl,
        10 => Kind::Scope,
        11 => Kind::ReplyCommand,
        12 => Kind::ReplyBody,
        13 => Kind::ReplyRange,
        _ => Kind::Status,
    }
}

fn case(rt: &impl Print, line: &[u8]) -> io::Result<()> {
    let mut bytes = [0u8; 1024];
    let n = unhex(line, &mut bytes);
    if 0 < n {
        let kind = kind_of(bytes[0]);
        message(rt, part(&bytes, 1, n - 1), kind)?;
    }
    Ok(())
}

fn lines(rt: &impl Print, s: &[u8]) -> io::Result<()> {
    for line in s.split(|b| *b == b'\n') {
        case(rt, line)?;
    }
    Ok(())
}

fn main(rt: HostRuntime) -> io::Result<()> {
    let mut input = [0u8; 65536];
    let n = read_full(&mut rt.reader(), &mut input)?;
    lines(&rt, &input[..n])
}
