// Whether one scope, or some scope of an ACL, grants a permission.
ghost use Rattle.std.specs.Prelude.{◌≡◌, true, ◌+◌, ◌*◌, ◌<◌, ◌≤◌};
ghost use Rattle.base_definitions.specs.Lists.{any};
ghost use Rattle.access_record.specs.Table.{scope_good};
ghost use Rattle.access_record.specs.Record.{scope_at, acl_at, Placed};
ghost use Rattle.access_permission.specs.Permission.{grants};

use access_record::Record;
use access_record::offsets::{
    ACL_BYTES, ACLS, PERMISSIONS, PERMISSIONS_LOW, SCOPE_BYTES, SCOPE_COUNT, SCOPES, TLS_REQUIRED,
    VALUE, VALUE_LENGTH,
};
use access_scope::{allows, fits_at, holds};
use base_integers::as_usize::wide;

fn scope_grants(
    device: &Record,
    a: usize,
    counts: bool,
    key: &[u8],
    protected: bool,
    permission: u8,
) -> bool
    requires { (a + 72 ≤ 2960) × (permission < 16) × (scope_good (scope_at device.now a) ≡ true) }
    ensures { result ≡ grants counts key.now protected permission (scope_at device.now a) }
{
    if !holds(
        wide(device[a + PERMISSIONS]) * 256 + wide(device[a + PERMISSIONS_LOW]),
        permission,
    ) {
        return false;
    }
    if !allows(device[a + TLS_REQUIRED], protected) {
        return false;
    }
    if !counts {
        return true;
    }
    fits_at(
        device,
        a + VALUE,
        wide(device[a + VALUE_LENGTH]),
        key,
        wide(device[a]),
    )
}

pub fn acl_grants(
    device: &Record,
    place: usize,
    counts: bool,
    key: &[u8],
    protected: bool,
    permission: u8,
) -> bool
    requires { Placed device.now place × (permission < 16) }
    ensures { result ≡ any (grants counts key.now protected permission) (acl_at device.now (16 + place * 368)).scopes }
{
    let a = ACLS + place * ACL_BYTES;
    let scopes = a + SCOPES;
    let n = wide(device[a + SCOPE_COUNT]);
    for k in 0..n {
        let at = scopes + k * SCOPE_BYTES;
        if scope_grants(device, at, counts, key, protected, permission) {
            return true;
        }
    }
    false
}
