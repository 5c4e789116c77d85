// Fields that may be left out, written into a lent buffer, each right before `at`, as the writers of bytes do.
#![tactic(auto)]

ghost use Rattle.std.specs.Prelude.{◌+◌, ◌^◌, ◌<◌, ◌≤◌, length};
ghost use Rattle.fields_schema.specs.Tree.{done};
ghost use Rattle.fields_encoding.specs.Encode.{encode, int_o, int_if, raw_if};
ghost use Rattle.fields_write_bytes.specs.Pushed.{Pushed, maybe};

use fields_write_bytes_field::push_raw;
use fields_write_field::push_int;

// Field `n`, a number if there is one.
pub fn push_maybe(out: &mut [u8], at: usize, n: u64, m: Option<u64>) -> usize
    requires { (n < 2 ^ 29) × (15 ≤ at) × (at ≤ length out.old) }
    ensures { Pushed result at (encode (int_o n (maybe m) done)) out.old out.new × (at ≤ result + 15) }
{
    match m {
        Some(v) => push_int(out, at, n, v),
        None => at,
    }
}

// Field `n`, a number if it is not 0.
pub fn push_nonzero(out: &mut [u8], at: usize, n: u64, v: u64) -> usize
    requires { (n < 2 ^ 29) × (15 ≤ at) × (at ≤ length out.old) }
    ensures { Pushed result at (encode (int_if n v done)) out.old out.new × (at ≤ result + 15) }
{
    if v == 0 { at } else { push_int(out, at, n, v) }
}

// Field `n`, bytes if there are any.
pub fn push_nonempty(out: &mut [u8], at: usize, n: u64, src: &[u8]) -> usize
    requires { (n < 2 ^ 29) × (15 + length src.now ≤ at) × (at ≤ length out.old) }
    ensures { Pushed result at (encode (raw_if n src.now done)) out.old out.new × (at ≤ result + 15 + length src.now) }
{
    if src.is_empty() {
        at
    } else {
        push_raw(out, at, n, src)
    }
}
