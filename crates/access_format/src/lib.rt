// The device record that Format makes.
#![tactic(auto)]

ghost use Rattle.std.specs.Prelude.{◌≡◌, ◌≤◌, length};
ghost use Rattle.access_record.specs.Table.{host_table};
ghost use Rattle.access_record.specs.Record.{table_bytes};

use access_acl_write::{add_acl, add_scope};
use access_record::Record;
use access_table_write::clear_table;

// Format: identity 1, the host's key, one scope with every permission, cluster version 0.
pub fn format_record(device: &mut Record, key: &[u8])
    requires { length key.now ≤ 64 }
    ensures { device.new ≡ table_bytes (host_table key.now) }
{
    let none = [0u8; 0];
    clear_table(device, 0);
    add_acl(device, 0, 1, key);
    add_scope(device, 0, 0, 0, 959, false, &none);
}
