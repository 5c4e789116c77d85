// Numbers and parts of a message, out of the slots of a level.
ghost use Rattle.std.specs.Prelude.{◌≡◌, ◌<◌};
ghost use Rattle.base_definitions.specs.Bits.{bit};
ghost use Rattle.fields_schema.specs.Tree.{level};
ghost use Rattle.fields_decode.specs.Slots.{Sized, Tells};
ghost use Rattle.fields_lookup.specs.Views.{bytes_at, Inside, SlotInside, NumIs, SignedIs, PartIs};

use base_integers::signed;
use fields_decode::slots::{Slots, collect};
use fields_rule::marked;
use fields_schema::Kind;

// A part of the message, if there is one; start and len are 0 where there is none.
#[derive(Clone, Copy)]
pub struct Part {
    pub has: bool,
    pub start: usize,
    pub len: usize,
}

// The level of kind `kind` in the part p.
pub fn open_at(s: &[u8], p: Part, kind: Kind) -> Slots
    requires { Inside s.now p }
    ensures { Tells kind (bytes_at s.now p) result (level kind (bytes_at s.now p)) }
{
    let start = p.start;
    let end = start + p.len;
    collect(&s[start..end], kind)
}

// The number of a level under a singular field number, if there is one.
pub fn num_of(t: Slots, n: u64) -> Option<u64>
    requires { (n < 16) × Sized t }
    ensures { NumIs t n result }
{
    marked(t.has, n).then_some(t.value[n as usize])
}

// The same of a signed number: 64-bit two's complement.
pub fn signed_of(t: Slots, n: u64) -> Option<i64>
    requires { (n < 16) × Sized t }
    ensures { SignedIs t n result }
{
    num_of(t, n).map(signed)
}

// The part of the whole message under a singular field number of the level in its part p.
pub fn part_of(s: &[u8], p: Part, t: Slots, n: u64) -> Part
    requires { (n < 16) × Sized t × Inside s.now p × SlotInside (bytes_at s.now p) t n }
    ensures { PartIs s.now p t n result }
{
    if marked(t.has, n) {
        let start = t.value[n as usize] as usize;
        return Part {
            has: true,
            start: p.start + start,
            len: t.len[n as usize],
        };
    }
    Part {
        has: false,
        start: 0,
        len: 0,
    }
}

// Whether a singular field of a level was sent twice.
pub fn sent_twice(t: Slots) -> bool
    ensures { result ≡ bit t.has 0 }
{
    marked(t.has, 0)
}
