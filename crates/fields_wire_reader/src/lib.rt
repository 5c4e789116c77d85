// Fields: a tag, and a value by its wire type.
#![tactic(auto)]

ghost use Rattle.std.specs.Prelude.{◌≡◌, ◌≤◌, length, drop, IfSome};
ghost use Rattle.fields_wire.specs.Wire.{value_of, read_field};
ghost use Rattle.fields_wire_reader.specs.FieldAnswer.{means_found, EndsFound, number_in, next_in};

use fields_wire::varint::read_varint;

// A tag has at most 32 bits, and its number is not 0.
const LEAST_TAG: u64 = 1 << 3;

const TAGS_END: u64 = 1 << 32;

// What a field of each wire type (0, 1, 2, 5) holds: a number, or where its bytes lie.
#[derive(Clone, Copy)]
pub enum Held {
    Varint(u64),
    I64 { start: usize },
    Len { start: usize, len: usize },
    I32 { start: usize },
}

// A field: its number, what it holds, and the place past it.
#[derive(Clone, Copy)]
pub struct Found {
    pub number: u64,
    pub held: Held,
    pub next: usize,
}

fn varint_at(s: &[u8], number: u64, at: usize) -> Option<Found>
    ensures { (means_found s.now result ≡ value_of number 0 (drop at s.now)) × IfSome result (EndsFound s.now at) }
{
    let v = read_varint(s, at)?;
    Some(Found {
        number,
        held: Held::Varint(v.value),
        next: v.next,
    })
}

fn i64_at(s: &[u8], number: u64, at: usize) -> Option<Found>
    requires { at ≤ length s.now }
    ensures { (means_found s.now result ≡ value_of number 1 (drop at s.now)) × IfSome result (EndsFound s.now at) }
{
    if 8 <= s.len() - at {
        return Some(Found {
            number,
            held: Held::I64 { start: at },
            next: at + 8,
        });
    }
    None
}

fn len_at(s: &[u8], number: u64, at: usize) -> Option<Found>
    ensures { (means_found s.now result ≡ value_of number 2 (drop at s.now)) × IfSome result (EndsFound s.now at) }
{
    let v = read_varint(s, at)?;
    let start = v.next;
    let len = v.value as usize;
    if len <= s.len() - start {
        return Some(Found {
            number,
            held: Held::Len { start, len },
            next: start + len,
        });
    }
    None
}

fn i32_at(s: &[u8], number: u64, at: usize) -> Option<Found>
    requires { at ≤ length s.now }
    ensures { (means_found s.now result ≡ value_of number 5 (drop at s.now)) × IfSome result (EndsFound s.now at) }
{
    if 4 <= s.len() - at {
        return Some(Found {
            number,
            held: Held::I32 { start: at },
            next: at + 4,
        });
    }
    None
}

fn value_at(s: &[u8], number: u64, wire: u64, at: usize) -> Option<Found>
    requires { at ≤ length s.now }
    ensures { (means_found s.now result ≡ value_of number wire (drop at s.now)) × IfSome result (EndsFound s.now at) }
{
    match wire {
        0 => varint_at(s, number, at),
        1 => i64_at(s, number, at),
        2 => len_at(s, number, at),
        5 => i32_at(s, number, at),
        _ => None,
    }
}

// The field at `at`, if there is one: a tag and its value.
#[inline(always)]
pub fn read_field(s: &[u8], at: usize) -> Option<Found>
    ensures { (means_found s.now result ≡ read_field (drop at s.now)) × IfSome result (EndsFound s.now at) }
{
    let tag = read_varint(s, at)?;
    if tag.value < LEAST_TAG || TAGS_END <= tag.value {
        return None;
    }
    value_at(s, tag.value / 8, tag.value % 8, tag.next)
}

// The number of a field; 0 for no field.
pub fn number_of(f: Option<Found>) -> u64
    ensures { result ≡ number_in f }
{
    match f {
        Some(f) => f.number,
        None => 0,
    }
}

// The place past a field; 0 for no field.
pub fn next_of(f: Option<Found>) -> usize
    ensures { result ≡ next_in f }
{
    match f {
        Some(f) => f.next,
        None => 0,
    }
}
