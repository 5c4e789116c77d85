// Fields of bytes and of a float written into a lent buffer, each right before `at`, as the writers of bytes do.
#![tactic(auto)]

ghost use Rattle.std.specs.Prelude.{◌+◌, ◌^◌, ◌<◌, ◌≤◌, length};
ghost use Rattle.fields_encoding.specs.Encode.{len_field, float_bytes, fix_field};
ghost use Rattle.fields_write_bytes.specs.Pushed.{Pushed};

use fields_write_bytes::push_bytes;
use fields_write_field::{push_head, push_tag};
use fields_write_word::push_le32;

// Field `n`, bytes.
pub fn push_raw(out: &mut [u8], at: usize, n: u64, src: &[u8]) -> usize
    requires { (n < 2 ^ 29) × (15 + length src.now ≤ at) × (at ≤ length out.old) }
    ensures { Pushed result at (len_field n src.now) out.old out.new × (at ≤ result + 15 + length src.now) }
{
    let a = push_bytes(out, at, src);
    push_head(out, a, n, src.len())
}

// Field `n`, a float by its 32 bits.
pub fn push_float(out: &mut [u8], at: usize, n: u64, bits: u32) -> usize
    requires { (n < 2 ^ 29) × (9 ≤ at) × (at ≤ length out.old) }
    ensures { Pushed result at (fix_field n (float_bytes bits)) out.old out.new × (at ≤ result + 9) }
{
    let a = push_le32(out, at, bits);
    push_tag(out, a, n, 5)
}
