// An identity looked up in the device record, and the key at its place.
#![tactic(auto)]

ghost use Rattle.std.specs.Prelude.{◌≡◌, true, ◌+◌, ◌*◌, ◌≤◌};
ghost use Rattle.base_integers.specs.Signed.{word_of};
ghost use Rattle.access_record.specs.Table.{table_good, find_from, place_of, acl_of};
ghost use Rattle.access_record.specs.Record.{acls_at, table_of, Placed};

use access_record::offsets::{ACL_BYTES, ACL_COUNT, ACLS, KEY, KEY_LENGTH};
use access_record::{Record, signed_at};
use base_integers::as_usize::wide;

// The first of n ACLs from byte a on that has the identity, counted from i.
pub fn find_from(device: &Record, a: usize, n: usize, i: usize, identity: i64) -> Option<usize>
    requires { (a + n * 368 ≤ 2960) × (i ≤ 8) }
    ensures { result ≡ find_from i (word_of identity) (acls_at device.now a n) }
{
    for k in 0..n {
        if signed_at(device, a + k * ACL_BYTES) == identity {
            return Some(i + k);
        }
    }
    None
}

pub fn find_identity(device: &Record, identity: i64) -> Option<usize>
    requires { table_good (table_of device.now) ≡ true }
    ensures { result ≡ place_of (table_of device.now) (word_of identity) }
{
    find_from(device, ACLS, wide(device[ACL_COUNT]), 0, identity)
}

// The key at a place, as a part of the record.
pub fn key_of(device: &Record, place: usize) -> &[u8]
    requires { Placed device.now place }
    ensures { result.now ≡ (acl_of (table_of device.now) place).key }
{
    let a = ACLS + place * ACL_BYTES;
    let start = a + KEY;
    let end = start + wide(device[a + KEY_LENGTH]);
    let bytes = &device[..];
    &bytes[start..end]
}
