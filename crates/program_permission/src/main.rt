// Prints the verdict for each cell of docs/VERDICTS.md, over a record that holds that page's table.
#![tactic(auto)]

ghost use Rattle.std.specs.Prelude.{◌<◌};

use access_acl_write::{add_acl, add_scope};
use access_permission::{DELETE, RANGE, READ, SECURITY, SETUP, WRITE};
use access_record::Record;
use access_record::offsets::RECORD_BYTES;
use access_verdict::verdict::{permits, permits_any};
use std::{fmt, io};

const MINUS_ONE: i64 = -1;

// ---- the table

fn clients(device: &mut Record) {
    add_acl(
        device,
        0,
        1,
        b"a3b38c37298f7f01a377518dae81dd99655b2be8129c3b2c6357b7e779064159",
    );
    add_scope(device, 0, 0, 0, 1, false, b"");
    add_scope(device, 0, 1, 0, 2, false, b"foo");
    add_acl(
        device,
        1,
        2,
        b"13010b8d8acdbe6abc005840aad1dc5dedb4345e681ed4e3c4645d891241d6b2",
    );
    add_scope(device, 1, 0, 0, 256, true, b"");
}

fn readers(device: &mut Record) {
    add_acl(device, 2, 3, b"three");
    add_scope(device, 2, 0, 3, 1, false, b"test");
    add_acl(device, 3, 4, b"four");
    add_scope(device, 3, 0, 0, 6, false, b"a");
    add_scope(device, 3, 1, 0, 1, false, b"b");
}

fn others(device: &mut Record) {
    add_acl(device, 4, 5, b"five");
    add_scope(device, 4, 0, 0, 8, false, b"a");
    add_scope(device, 4, 1, 0, 8, true, b"m");
    add_acl(device, 5, 6, b"six");
    add_scope(device, 5, 0, 0, 1, true, b"");
    add_scope(device, 5, 1, 1, 1, false, b"pen");
    add_acl(device, 6, MINUS_ONE, b"minus one");
    add_scope(device, 6, 0, 60, 272, false, b"zzzz");
    add_scope(device, 6, 1, 0, 8, false, b"");
    add_acl(device, 7, 7, b"seven");
    add_scope(device, 7, 0, 0, 9, true, b"z");
}

// ---- what is asked

#[derive(Clone, Copy)]
enum Permission {
    Read,
    Write,
    Delete,
    Range,
    Setup,
    Security,
}

impl Permission {
    fn number(self) -> u8
        ensures { result < 16 }
    {
        match self {
            Permission::Read => READ,
            Permission::Write => WRITE,
            Permission::Delete => DELETE,
            Permission::Range => RANGE,
            Permission::Setup => SETUP,
            Permission::Security => SECURITY,
        }
    }
}

impl fmt::Display for Permission {
    fn fmt<W: fmt::Write>(&self, f: &mut fmt::Formatter<W>) -> fmt::Result {
        f.write_str(match self {
            Permission::Read => "READ",
            Permission::Write => "WRITE",
            Permission::Delete => "DELETE",
            Permission::Range => "RANGE",
            Permission::Setup => "SETUP",
            Permission::Security => "SECURITY",
        })
    }
}

// A permission for an identity, with a key or with none.
#[derive(Clone, Copy)]
struct Asked<'a> {
    identity: i64,
    permission: Permission,
    key: Option<&'a str>,
}

// ---- the verdict

#[derive(Drop)]
enum Verdict {
    Bad,
    Nobody,
    No,
    Yes,
}

impl fmt::Display for Verdict {
    fn fmt<W: fmt::Write>(&self, f: &mut fmt::Formatter<W>) -> fmt::Result {
        f.write_str(match self {
            Verdict::Bad => "bad",
            Verdict::Nobody => "nobody",
            Verdict::No => "no",
            Verdict::Yes => "yes",
        })
    }
}

fn judge(device: &Record, asked: Asked, protected: bool) -> Verdict {
    if !access_check::record_good(device) {
        return Verdict::Bad;
    }
    let Some(place) = access_identity::find_identity(device, asked.identity) else {
        return Verdict::Nobody;
    };
    let permission = asked.permission.number();
    let yes = match asked.key {
        Some(key) => permits(device, place, protected, permission, key.as_bytes()),
        None => permits_any(device, place, protected, permission),
    };
    if yes { Verdict::Yes } else { Verdict::No }
}

// ---- a line for each cell

fn cell(rt: &impl Print, device: &Record, asked: Asked, protected: bool) -> io::Result<()> {
    let verdict = judge(device, asked, protected);
    let identity = asked.identity;
    let permission = asked.permission;
    print!(rt; "{identity} {permission}")?;
    if let Some(key) = asked.key {
        print!(rt; " \"{key}\"")?;
    }
    let connection = if protected { "protected" } else { "plain" };
    println!(rt; " {connection} {verdict}")
}

fn rows(
    rt: &impl Print,
    device: &Record,
    rows: &[(i64, Permission, Option<&str>)],
) -> io::Result<()> {
    for (identity, permission, key) in rows {
        let asked = Asked {
            identity: *identity,
            permission: *permission,
            key: *key,
        };
        cell(rt, device, asked, false)?;
        cell(rt, device, asked, true)?;
    }
    Ok(())
}

// ---- the rows

fn client_rows(rt: &impl Print, device: &Record) -> io::Result<()> {
    rows(
        rt,
        device,
        &[
            (1, Permission::Read, Some("foo1")),
            (1, Permission::Read, Some("bar")),
            (1, Permission::Write, Some("foo")),
            (1, Permission::Write, Some("foo/1")),
            (1, Permission::Write, Some("fo")),
            (1, Permission::Write, Some("xfoo")),
            (1, Permission::Write, Some("bar")),
            (1, Permission::Delete, Some("foo1")),
            (1, Permission::Read, None),
            (1, Permission::Range, None),
            (1, Permission::Security, None),
            (2, Permission::Security, None),
            (2, Permission::Setup, None),
            (2, Permission::Read, None),
            (2, Permission::Read, Some("foo1")),
            (2, Permission::Write, Some("foo1")),
        ],
    )
}

fn reader_rows(rt: &impl Print, device: &Record) -> io::Result<()> {
    rows(
        rt,
        device,
        &[
            (3, Permission::Read, Some("xyztest1")),
            (3, Permission::Read, Some("001test2")),
            (3, Permission::Read, Some("somethingElse")),
            (3, Permission::Read, Some("test123")),
            (3, Permission::Read, Some("1234test")),
            (3, Permission::Read, Some("xyztes")),
            (3, Permission::Read, Some("")),
            (4, Permission::Write, Some("a1")),
            (4, Permission::Write, Some("b1")),
            (4, Permission::Read, Some("a1")),
            (4, Permission::Read, Some("b1")),
            (4, Permission::Delete, Some("a1")),
            (4, Permission::Read, None),
        ],
    )
}

fn range_rows(rt: &impl Print, device: &Record) -> io::Result<()> {
    rows(
        rt,
        device,
        &[
            (5, Permission::Range, None),
            (5, Permission::Range, Some("a1")),
            (5, Permission::Range, Some("m1")),
            (5, Permission::Range, Some("z1")),
            (5, Permission::Range, Some("")),
            (5, Permission::Read, None),
            (7, Permission::Read, None),
            (7, Permission::Range, None),
            (7, Permission::Read, Some("z1")),
            (7, Permission::Range, Some("a1")),
        ],
    )
}

fn other_rows(rt: &impl Print, device: &Record) -> io::Result<()> {
    rows(
        rt,
        device,
        &[
            (6, Permission::Read, Some("open")),
            (6, Permission::Read, Some("shut")),
            (6, Permission::Read, Some("pen")),
            (6, Permission::Read, None),
            (MINUS_ONE, Permission::Setup, None),
            (MINUS_ONE, Permission::Security, None),
            (MINUS_ONE, Permission::Range, None),
            (MINUS_ONE, Permission::Range, Some("zzzz")),
            (MINUS_ONE, Permission::Read, Some("zzzz")),
            (9, Permission::Read, Some("foo1")),
            (9, Permission::Range, None),
        ],
    )
}

fn main(rt: HostRuntime) -> io::Result<()> {
    let mut device = [0u8; RECORD_BYTES];
    access_table_write::clear_table(&mut device, 0);
    clients(&mut device);
    readers(&mut device);
    others(&mut device);
    client_rows(&rt, &device)?;
    reader_rows(&rt, &device)?;
    range_rows(&rt, &device)?;
    other_rows(&rt, &device)
}
