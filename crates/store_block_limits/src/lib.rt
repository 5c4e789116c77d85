// The limits of what a block holds.
#![tactic(auto)]

ghost use Rattle.std.specs.Prelude.{◌≡◌, length};
ghost use Rattle.store_block.specs.Decides.{Decides};
ghost use Rattle.store_block.specs.Direct.{Small};

use base_integers::as_usize::wide;
use store_block::offsets::{
    ALGORITHM, KEY_LENGTH, TAG_LENGTH, VALUE_LENGTH, VALUE_LENGTH_LOW, VERSION_LENGTH,
};

// Whether the lengths and the algorithm keep their limits.
pub fn limits(b: &[u8]) -> bool
    requires { length b.now ≡ 512 }
    ensures { Decides result (Small b.now) }
{
    let n = wide(b[VALUE_LENGTH]) * 256 + wide(b[VALUE_LENGTH_LOW]);
    (1..=64).contains(&b[KEY_LENGTH])
        && b[VERSION_LENGTH] <= 16
        && b[TAG_LENGTH] <= 32
        && n <= 384
        && b[ALGORITHM] <= 6
}
