// The next of a repeated field.
#![tactic(auto)]

ghost use Rattle.std.specs.Prelude.{◌≡◌};
ghost use Rattle.fields_lookup.specs.Views.{Inside};
ghost use Rattle.fields_repeated.specs.Values.{NextFound, NextPartIs, NextNumIs};

use fields_lookup::parts::Part;
use fields_wire_reader::{Found, Held, read_field};

// The first field of number n.
pub fn next_numbered(s: &[u8], n: u64) -> Option<Found>
    ensures { NextFound s.now n result }
{
    // A while: each field says where the next one starts.
    let mut at = 0;
    while at < s.len() {
        let f = read_field(s, at)?;
        if f.number == n {
            return Some(f);
        }
        at = f.next;
    }
    None
}

// The first bytes or message of number n in the part `left`, and what is left after it.
pub fn next_part(s: &[u8], left: Part, n: u64) -> Option<(Part, Part)>
    requires { Inside s.now left }
    ensures { NextPartIs s.now left n result }
{
    let from = left.start;
    let end = from + left.len;
    let found = next_numbered(&s[from..end], n)?;
    let Held::Len { start, len } = found.held else {
        return None;
    };
    let part = Part {
        has: true,
        start: from + start,
        len,
    };
    let rest = Part {
        has: true,
        start: from + found.next,
        len: left.len - found.next,
    };
    Some((part, rest))
}

// The first value of number n in the part `left`, and what is left after it.
pub fn next_num(s: &[u8], left: Part, n: u64) -> Option<(u64, Part)>
    requires { Inside s.now left }
    ensures { NextNumIs s.now left n result }
{
    let from = left.start;
    let end = from + left.len;
    let f = next_numbered(&s[from..end], n)?;
    let Held::Varint(value) = f.held else {
        return None;
    };
    let rest = Part {
        has: true,
        start: from + f.next,
        len: left.len - f.next,
    };
    Some((value, rest))
}
