// Document 01, "The order of judgement", step 9, and "Who may": the verdict on the permission that a request needs.
#![tactic(auto)]

ghost use Rattle.std.specs.Prelude.{◌≡◌, true};
ghost use Rattle.access_record.specs.Table.{acl_of};
ghost use Rattle.access_record.specs.Record.{table_of, Placed};
ghost use Rattle.protocol.specs.Command.{Body};
ghost use Rattle.protocol.specs.Judge.{key_value_in, permitted};
ghost use Rattle.judge_permission.specs.Numbered.{numbered};

use access_record::Record;
use protocol::Permission;

// The verdict on a permission with this key.
pub fn permitted(
    device: &Record,
    acl: usize,
    protected: bool,
    permission: Permission,
    key: &[u8],
) -> bool
    requires { Placed device.now acl × (numbered permission ≡ true) }
    ensures { (b : Body) → (key_value_in b).key ≡ key.now
        → result ≡ permitted (acl_of (table_of device.now) acl) protected permission b }
{
    match permission {
        Permission::Free => true,
        Permission::Key(p) => access_verdict::verdict::permits(device, acl, protected, p, key),
        Permission::Any(p) => access_verdict::verdict::permits_any(device, acl, protected, p),
    }
}
