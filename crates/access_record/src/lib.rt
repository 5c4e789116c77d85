// The device record, its signed numbers and its cluster version.
#![tactic(auto)]

pub mod offsets;

ghost use Rattle.std.specs.Prelude.{◌≡◌, ◌+◌, ◌≤◌, length};
ghost use Rattle.base_integers.specs.Signed.{word_of};
ghost use Rattle.access_record.specs.Record.{word_at, table_of};

use crate::offsets::RECORD_BYTES;
use base_integers::signed;

// The device record: the table of identities and the cluster version.
pub type Record = [u8; RECORD_BYTES];

// The signed number at a place, such as an identity: 64-bit two's complement, big-endian.
pub fn signed_at(bytes: &[u8], a: usize) -> i64
    requires { a + 8 ≤ length bytes.now }
    ensures { word_of result ≡ word_at bytes.now a }
{
    let word = u64::from_be_bytes([
        bytes[a],
        bytes[a + 1],
        bytes[a + 2],
        bytes[a + 3],
        bytes[a + 4],
        bytes[a + 5],
        bytes[a + 6],
        bytes[a + 7],
    ]);
    signed(word)
}

pub fn cluster_version(device: &Record) -> i64
    ensures { word_of result ≡ (table_of device.now).cluster_version }
{
    signed_at(device, 0)
}
