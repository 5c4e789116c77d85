// Who may do what: the verdict on a permission.
ghost use Rattle.std.specs.Prelude.{◌≡◌, ◌<◌};
ghost use Rattle.access_record.specs.Table.{acl_of};
ghost use Rattle.access_record.specs.Record.{table_of, Placed};
ghost use Rattle.access_permission.specs.Permission.{permits, permits_any};

use crate::grants::acl_grants;
use access_record::Record;

// One scope at the place holds the permission, allows the connection and fits the key.
pub fn permits(device: &Record, place: usize, protected: bool, permission: u8, key: &[u8]) -> bool
    requires { Placed device.now place × (permission < 16) }
    ensures { result ≡ permits (acl_of (table_of device.now) place) protected permission key.now }
{
    acl_grants(device, place, true, key, protected, permission)
}

// The same with no key.
pub fn permits_any(device: &Record, place: usize, protected: bool, permission: u8) -> bool
    requires { Placed device.now place × (permission < 16) }
    ensures { result ≡ permits_any (acl_of (table_of device.now) place) protected permission }
{
    let none = [0u8; 0];
    acl_grants(device, place, false, &none, protected, permission)
}
