// Numbers in other widths: signed ones are 64-bit two's complement.
#![tactic(auto)]

pub mod as_u32;
pub mod as_u64;
pub mod as_usize;

ghost use Rattle.std.specs.Prelude.{◌≡◌};
ghost use Rattle.base_integers.specs.Signed.{signed_of, word_of};

// The number that a word stands for.
pub fn signed(v: u64) -> i64
    ensures { result ≡ signed_of v }
{
    v.cast_signed()
}

// The word that stands for a number.
pub fn word(x: i64) -> u64
    ensures { result ≡ word_of x }
{
    x.cast_unsigned()
}
