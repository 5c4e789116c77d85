// Is the device record good?
#![tactic(auto)]

ghost use Rattle.std.specs.Prelude.{◌≡◌, ◌+◌, ◌*◌, ◌≤◌};
ghost use Rattle.base_definitions.specs.Lists.{all};
ghost use Rattle.access_record.specs.Table.{mask_good, scope_good, acl_good, acls_good, table_good};
ghost use Rattle.access_record.specs.Record.{scope_at, scopes_at, acl_at, acls_at, table_of};

use access_identity::find_from;
use access_record::offsets::{
    ACL_BYTES, ACL_COUNT, ACLS, KEY_LENGTH, PERMISSIONS, PERMISSIONS_LOW, SCOPE_BYTES, SCOPE_COUNT,
    SCOPES, VALUE_LENGTH,
};
use access_record::{Record, signed_at};
use base_integers::as_usize::wide;

fn mask_good(mask: usize) -> bool
    ensures { result ≡ mask_good mask }
{
    if mask < 1 {
        return false;
    }
    if 1023 < mask {
        return false;
    }
    mask / 64 % 2 == 0
}

fn scope_good(device: &Record, a: usize) -> bool
    requires { a + 72 ≤ 2960 }
    ensures { result ≡ scope_good (scope_at device.now a) }
{
    if 64 < device[a] {
        return false;
    }
    if 64 < device[a + VALUE_LENGTH] {
        return false;
    }
    mask_good(wide(device[a + PERMISSIONS]) * 256 + wide(device[a + PERMISSIONS_LOW]))
}

fn scopes_good(device: &Record, a: usize, n: usize) -> bool
    requires { a + n * 72 ≤ 2960 }
    ensures { result ≡ all scope_good (scopes_at device.now a n) }
{
    for k in 0..n {
        if !scope_good(device, a + k * SCOPE_BYTES) {
            return false;
        }
    }
    true
}

fn acl_good(device: &Record, a: usize) -> bool
    requires { a + 368 ≤ 2960 }
    ensures { result ≡ acl_good (acl_at device.now a) }
{
    let k = device[a + KEY_LENGTH];
    let n = wide(device[a + SCOPE_COUNT]);
    if k < 1 {
        return false;
    }
    if 64 < k {
        return false;
    }
    if n < 1 {
        return false;
    }
    if 4 < n {
        return false;
    }
    scopes_good(device, a + SCOPES, n)
}

fn acls_good(device: &Record, n: usize) -> bool
    requires { 16 + n * 368 ≤ 2960 }
    ensures { result ≡ acls_good (acls_at device.now 16 n) }
{
    for k in 0..n {
        let at = ACLS + k * ACL_BYTES;
        if !acl_good(device, at) {
            return false;
        }
        let identity = signed_at(device, at);
        if find_from(device, at + ACL_BYTES, n - k - 1, 0, identity).is_some() {
            return false;
        }
    }
    true
}

// Refusal 3, DEVICE_BAD, is given exactly when this is false.
pub fn record_good(device: &Record) -> bool
    ensures { result ≡ table_good (table_of device.now) }
{
    let n = wide(device[ACL_COUNT]);
    if n < 1 {
        return false;
    }
    if 8 < n {
        return false;
    }
    acls_good(device, n)
}
