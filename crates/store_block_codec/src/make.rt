// The working block: zeros, filled with an entry's parts and sealed with the sum.
ghost use Rattle.std.specs.Prelude.{◌≡◌, ◌++◌, length, take};
ghost use Rattle.store_block.specs.Entry.{entry, Sized};
ghost use Rattle.base_definitions.specs.BigEndian.{be32};
ghost use Rattle.store_block.specs.Block.{block, sum_from};

use store_block::copy;
use store_block::offsets::{
    ALGORITHM, BLOCK_BYTES, KEY, KEY_LENGTH, SUM, SUM_2, SUM_3, SUM_4, TAG, TAG_LENGTH, VALUE,
    VALUE_LENGTH, VALUE_LENGTH_LOW, VERSION, VERSION_LENGTH,
};
use store_block_sum::sum;

// Sets the check bytes of a working block.
pub fn seal(b: &mut [u8])
    requires { length b.old ≡ 512 }
    ensures { b.new ≡ take 508 b.old ++ be32 (sum_from 0 (take 508 b.old)) }
{
    let s = sum(b);
    b[SUM] = (s / 16777216) as u8;
    b[SUM_2] = (s / 65536 % 256) as u8;
    b[SUM_3] = (s / 256 % 256) as u8;
    b[SUM_4] = (s % 256) as u8;
}

// A working block of zeros, filled with an entry's parts and sealed.
pub fn make(
    key: &[u8],
    version: &[u8],
    tag: &[u8],
    value: &[u8],
    algorithm: u8,
) -> [u8; BLOCK_BYTES]
    requires { Sized (entry key.now version.now tag.now value.now algorithm) }
    ensures { result ≡ block (entry key.now version.now tag.now value.now algorithm) }
{
    let mut b = [0u8; BLOCK_BYTES];
    let k = key.len();
    let v = version.len();
    let t = tag.len();
    let n = value.len();
    b[0] = 1;
    b[KEY_LENGTH] = k as u8;
    b[VERSION_LENGTH] = v as u8;
    b[TAG_LENGTH] = t as u8;
    b[VALUE_LENGTH] = (n / 256) as u8;
    b[VALUE_LENGTH_LOW] = (n % 256) as u8;
    b[ALGORITHM] = algorithm;
    copy(&mut b, KEY, key);
    copy(&mut b, VERSION, version);
    copy(&mut b, TAG, tag);
    copy(&mut b, VALUE, value);
    seal(&mut b);
    b
}
