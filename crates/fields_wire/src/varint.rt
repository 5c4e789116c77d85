// Varints: one to ten bytes, seven bits each, the lowest first.
ghost use Rattle.std.specs.Prelude.{◌≡◌, ◌^◌, ◌<◌, drop, IfSome};
ghost use Rattle.fields_wire.specs.Wire.{varint_in, varint};
ghost use Rattle.fields_wire.specs.VarintAnswer.{above, means_varint, EndsVarint};

use base_integers::as_u64::wide;

// A varint's value and the place past it.
#[derive(Clone, Copy)]
pub struct Varint {
    pub value: u64,
    pub next: usize,
}

// The tenth byte, 0 or 1, after nine that hold `low`.
fn tenth_byte(s: &[u8], at: usize, low: u64) -> Option<Varint>
    requires { low < 2 ^ 63 }
    ensures { (means_varint s.now result ≡ above low (2 ^ 63) (varint_in 1 (drop at s.now))) × IfSome result (EndsVarint s.now at) }
{
    let b = *s.get(at)?;
    if b < 2 {
        return Some(Varint {
            value: low + (1 << 63) * wide(b),
            next: at + 1,
        });
    }
    None
}

// A varint of any length, byte by byte: `place` is 128 to the number of bytes read.
fn long_varint(s: &[u8], at: usize) -> Option<Varint>
    ensures { (means_varint s.now result ≡ varint (drop at s.now)) × IfSome result (EndsVarint s.now at) }
{
    let mut value: u64 = 0;
    let mut place: u64 = 1;
    for count in 0..9 {
        let i = at + count;
        let b = *s.get(i)?;
        if b < 128 {
            return Some(Varint {
                value: value + place * wide(b),
                next: i + 1,
            });
        }
        value += place * (wide(b) % 128);
        place *= 128;
    }
    tenth_byte(s, at + 9, value)
}

// The varint at `at`, if there is one; most are of one byte.
pub fn read_varint(s: &[u8], at: usize) -> Option<Varint>
    ensures { (means_varint s.now result ≡ varint (drop at s.now)) × IfSome result (EndsVarint s.now at) }
{
    let b = *s.get(at)?;
    if b < 128 {
        return Some(Varint {
            value: wide(b),
            next: at + 1,
        });
    }
    long_varint(s, at)
}
