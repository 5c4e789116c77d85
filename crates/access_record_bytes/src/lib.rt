// Bytes and signed numbers written into a record: each write returns the place after it.
#![tactic(auto)]

ghost use Rattle.std.specs.Prelude.{◌≡◌, ◌+◌, ◌≤◌, length, replicate};
ghost use Rattle.base_definitions.specs.Lists.{fill};
ghost use Rattle.base_integers.specs.Signed.{word_of};
ghost use Rattle.access_record.specs.Record.{flag, word_bytes};
ghost use Rattle.access_record_bytes.specs.Wrote.{Wrote};

pub fn put_bytes(out: &mut [u8], at: usize, src: &[u8]) -> usize
    requires { at + length src.now ≤ length out.old }
    ensures { Wrote at result src.now out.old out.new }
{
    let end = at + src.len();
    out[at..end].copy_from_slice(src);
    end
}

pub fn put_zeros(out: &mut [u8], at: usize, n: usize) -> usize
    requires { at + n ≤ length out.old }
    ensures { Wrote at result (replicate n 0) out.old out.new }
{
    let end = at + n;
    out[at..end].fill(0);
    end
}

// Filled up with zeros to 64 bytes.
pub fn put_filled(out: &mut [u8], at: usize, src: &[u8]) -> usize
    requires { (at + 64 ≤ length out.old) × (length src.now ≤ 64) }
    ensures { Wrote at result (fill 64 src.now) out.old out.new }
{
    let end = put_bytes(out, at, src);
    put_zeros(out, end, 64 - src.len())
}

// A signed number, as its word.
pub fn put_signed(out: &mut [u8], at: usize, x: i64) -> usize
    requires { at + 8 ≤ length out.old }
    ensures { Wrote at result (word_bytes (word_of x)) out.old out.new }
{
    put_bytes(out, at, &x.to_be_bytes())
}

// A flag as its byte.
pub fn flag_of(t: bool) -> u8
    ensures { result ≡ flag t }
{
    u8::from(t)
}
