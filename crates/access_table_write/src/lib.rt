// The device record written: the cluster version, and a table with no ACL yet.
#![tactic(auto)]

ghost use Rattle.std.specs.Prelude.{◌≡◌};
ghost use Rattle.base_integers.specs.Signed.{word_of};
ghost use Rattle.access_record.specs.Record.{table_bytes, with_cluster_version};
ghost use Rattle.access_table_write.specs.Write.{empty_table};

use access_record::Record;
use access_record_bytes::{put_signed, put_zeros};

pub fn set_cluster_version(device: &mut Record, version: i64)
    ensures { device.new ≡ with_cluster_version device.old (word_of version) }
{
    put_signed(device, 0, version);
}

// No ACL yet: every byte past the cluster version is zero.
pub fn clear_table(device: &mut Record, version: i64)
    ensures { device.new ≡ table_bytes (empty_table (word_of version)) }
{
    let end = put_signed(device, 0, version);
    put_zeros(device, end, 2952);
}
