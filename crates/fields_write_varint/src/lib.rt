// Varints written into a lent buffer, each right before `at`, as the writers of bytes do.
#![tactic(auto)]

ghost use Rattle.std.specs.Prelude.{◌≡◌, ◌+◌, ◌≤◌, length};
ghost use Rattle.fields_wire.specs.Varint.{varint_bytes};
ghost use Rattle.fields_write_bytes.specs.Pushed.{Pushed};

use fields_write_bytes::push_byte;

// How many bytes the shortest varint of `v` has: one for each seven bits.
fn varint_len(v: u64) -> usize
    ensures { result ≡ length (varint_bytes v) }
{
    let highest = v.max(1).ilog2();
    (highest / 7 + 1) as usize
}

// A varint of any length, forwards from where it starts.
fn push_groups(out: &mut [u8], at: usize, v: u64) -> usize
    requires { (length (varint_bytes v) ≤ at) × (at ≤ length out.old) }
    ensures { Pushed result at (varint_bytes v) out.old out.new }
{
    let p = at - varint_len(v);
    let mut rest = v;
    for k in p..at - 1 {
        out[k] = (rest % 128 + 128) as u8;
        rest /= 128;
    }
    out[at - 1] = rest as u8;
    p
}

// The shortest varint of `v`. Most are of one byte.
pub fn push_varint(out: &mut [u8], at: usize, v: u64) -> usize
    requires { (length (varint_bytes v) ≤ at) × (at ≤ length out.old) }
    ensures { Pushed result at (varint_bytes v) out.old out.new × (at ≤ result + 10) }
{
    if 128 <= v {
        push_groups(out, at, v)
    } else {
        push_byte(out, at, v as u8)
    }
}
