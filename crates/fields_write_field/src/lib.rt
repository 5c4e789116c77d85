// Tags, numbers and heads written into a lent buffer, each right before `at`, as the writers of bytes do.
#![tactic(auto)]

ghost use Rattle.std.specs.Prelude.{◌+◌, ◌^◌, ◌<◌, ◌≤◌, length};
ghost use Rattle.base_integers.specs.Signed.{word_of};
ghost use Rattle.fields_encoding.specs.Encode.{tag, int_field, head};
ghost use Rattle.fields_write_bytes.specs.Pushed.{Pushed};

use base_integers::word;
use fields_write_varint::push_varint;

// A tag: field number and wire type.
pub fn push_tag(out: &mut [u8], at: usize, n: u64, w: u64) -> usize
    requires { (n < 2 ^ 29) × (w < 8) × (5 ≤ at) × (at ≤ length out.old) }
    ensures { Pushed result at (tag n w) out.old out.new × (at ≤ result + 5) }
{
    push_varint(out, at, 8 * n + w)
}

// Field `n`, a number.
pub fn push_int(out: &mut [u8], at: usize, n: u64, v: u64) -> usize
    requires { (n < 2 ^ 29) × (15 ≤ at) × (at ≤ length out.old) }
    ensures { Pushed result at (int_field n v) out.old out.new × (at ≤ result + 15) }
{
    let a = push_varint(out, at, v);
    push_tag(out, a, n, 0)
}

// Field `n`, a signed number: the word of its two's complement.
pub fn push_signed(out: &mut [u8], at: usize, n: u64, x: i64) -> usize
    requires { (n < 2 ^ 29) × (15 ≤ at) × (at ≤ length out.old) }
    ensures { Pushed result at (int_field n (word_of x)) out.old out.new × (at ≤ result + 15) }
{
    push_int(out, at, n, word(x))
}

// What stands before the `len` bytes of field `n`.
pub fn push_head(out: &mut [u8], at: usize, n: u64, len: usize) -> usize
    requires { (n < 2 ^ 29) × (15 ≤ at) × (at ≤ length out.old) }
    ensures { Pushed result at (head n len) out.old out.new × (at ≤ result + 15) }
{
    let a = push_varint(out, at, len as u64);
    push_tag(out, a, n, 2)
}
