// What one scope must do to grant a permission: hold it, allow the connection, and fit the key.
#![tactic(auto)]

ghost use Rattle.std.specs.Prelude.{◌≡◌, not, ◌||◌, ◌+◌, ◌<◌, ◌≤◌, eqb};
ghost use Rattle.base_definitions.specs.Bits.{bit};
ghost use Rattle.access_record.specs.Record.{bytes_at};
ghost use Rattle.access_permission.specs.Permission.{fits_at};

use access_record::Record;
use base_bytes::same;

pub fn holds(mask: usize, permission: u8) -> bool
    requires { permission < 16 }
    ensures { result ≡ bit mask permission }
{
    (mask >> permission) % 2 == 1
}

// TlsRequired means protected only.
pub fn allows(tls: u8, protected: bool) -> bool
    ensures { result ≡ (not (not (eqb tls 0)) || protected) }
{
    protected || tls == 0
}

// The value of n bytes at a is empty, or stands in the key at exactly the offset. Keys that differ mostly differ at their ends: the last byte is
// looked at first.
pub fn fits_at(device: &Record, a: usize, n: usize, key: &[u8], offset: usize) -> bool
    requires { (a + n ≤ 2960) × (offset ≤ 64) }
    ensures { result ≡ fits_at (bytes_at device.now a n) offset key.now }
{
    if n == 0 {
        return true;
    }
    let end = offset + n;
    if key.len() < end {
        return false;
    }
    let record = &device[..];
    let stop = a + n;
    if record[stop - 1] != key[end - 1] {
        return false;
    }
    same(&record[a..stop], &key[offset..end])
}
