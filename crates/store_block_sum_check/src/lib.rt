// The sum that a block holds.
#![tactic(auto)]

ghost use Rattle.std.specs.Prelude.{◌≡◌, length};
ghost use Rattle.store_block.specs.Block.{SumRight};
ghost use Rattle.store_block.specs.Decides.{Decides};
ghost use Rattle.store_block.specs.Direct.{Held};

use base_integers::as_usize::wide;
use store_block::offsets::{SUM, SUM_2, SUM_3, SUM_4};
use store_block_sum::sum;

// The number that bytes 508 to 511 hold.
fn held(b: &[u8]) -> u64
    requires { length b.now ≡ 512 }
    ensures { Held b.now result }
{
    let x = wide(b[SUM]) * 16777216;
    let y = wide(b[SUM_2]) * 65536;
    let z = wide(b[SUM_3]) * 256;
    let w = wide(b[SUM_4]);
    (x + y + z + w) as u64
}

// Whether bytes 508 to 511 are the sum over bytes 0 to 507.
pub fn sum_right(b: &[u8]) -> bool
    requires { length b.now ≡ 512 }
    ensures { Decides result (SumRight b.now) }
{
    sum(b) == held(b)
}
