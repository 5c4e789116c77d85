// The rules of one block.
ghost use Rattle.std.specs.Prelude.{◌≡◌, length};
ghost use Rattle.store_block.specs.Block.{SumRight, BlockGood};
ghost use Rattle.store_block.specs.Decides.{Decides, DecidesGiven};

use base_integers::as_usize::wide;
use store_block::offsets::{
    KEY, KEY_LENGTH, SUM, TAG, TAG_LENGTH, VALUE, VALUE_LENGTH, VALUE_LENGTH_LOW, VERSION,
    VERSION_LENGTH,
};
use store_block::zeros;
use store_block_limits::limits;
use store_block_sum_check::sum_right;

// Whether 512 bytes keep every rule of a block but the sum.
pub fn rules_kept(b: &[u8]) -> bool
    requires { length b.now ≡ 512 }
    ensures { DecidesGiven (SumRight b.now) result (BlockGood b.now) }
{
    if !limits(b) {
        return false;
    }
    let ke = KEY + wide(b[KEY_LENGTH]);
    let ve = VERSION + wide(b[VERSION_LENGTH]);
    let te = TAG + wide(b[TAG_LENGTH]);
    let ne = VALUE + (wide(b[VALUE_LENGTH]) * 256 + wide(b[VALUE_LENGTH_LOW]));
    if b[0] != 1 {
        return false;
    }
    if b[7] != 0 {
        return false;
    }
    if !zeros(&b[ke..VERSION]) {
        return false;
    }
    if !zeros(&b[ve..TAG]) {
        return false;
    }
    if !zeros(&b[te..VALUE]) {
        return false;
    }
    if !zeros(&b[ne..SUM]) {
        return false;
    }
    true
}

// Whether 512 bytes are the block of an entry.
pub fn good(b: &[u8]) -> bool
    requires { length b.now ≡ 512 }
    ensures { Decides result (BlockGood b.now) }
{
    rules_kept(b) && sum_right(b)
}
