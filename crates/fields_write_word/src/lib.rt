// Words of 32 bits written into a lent buffer, each right before `at`, as the writers of bytes do.
#![tactic(auto)]

ghost use Rattle.std.specs.Prelude.{◌^◌, ◌≤◌, ◌<◌, length};
ghost use Rattle.fields_encoding.specs.Encode.{float_bytes};
ghost use Rattle.fields_write_bytes.specs.Pushed.{Pushed};
ghost use Rattle.base_definitions.specs.BigEndian.{be32};

use fields_write_bytes::push_bytes;

// The 32 bits of `v` as four bytes, the highest first.
pub fn push_be32(out: &mut [u8], at: usize, v: usize) -> usize
    requires { (4 ≤ at) × (at ≤ length out.old) × (v < 2 ^ 32) }
    ensures { Pushed result at (be32 v) out.old out.new }
{
    push_bytes(out, at, &(v as u32).to_be_bytes())
}

// The 32 bits of `x` as four bytes, the lowest first.
pub fn push_le32(out: &mut [u8], at: usize, x: u32) -> usize
    requires { (4 ≤ at) × (at ≤ length out.old) }
    ensures { Pushed result at (float_bytes x) out.old out.new }
{
    push_bytes(out, at, &x.to_le_bytes())
}
