// An ACL and its scopes written into the device record.
#![tactic(auto)]

ghost use Rattle.std.specs.Prelude.{◌≡◌, ◌+◌, ◌<◌, ◌≤◌, length};
ghost use Rattle.base_integers.specs.Signed.{word_of};
ghost use Rattle.access_record.specs.Record.{scope_bytes, acl_head};
ghost use Rattle.access_record_bytes.specs.Wrote.{Wrote};
ghost use Rattle.access_table_write.specs.Write.{put_acl, put_scope};

use access_record::Record;
use access_record::offsets::{ACL_BYTES, ACL_COUNT, ACLS, SCOPE_BYTES, SCOPE_COUNT, SCOPES};
use access_record_bytes::{flag_of, put_bytes, put_filled, put_signed};

fn put_acl(out: &mut [u8], at: usize, identity: i64, key: &[u8]) -> usize
    requires { (at + 80 ≤ length out.old) × (length key.now ≤ 64) }
    ensures { Wrote at result (acl_head (word_of identity) key.now 0) out.old out.new }
{
    let a = put_signed(out, at, identity);
    let lengths = [key.len() as u8, 0, 0, 0, 0, 0, 0, 0];
    let b = put_bytes(out, a, &lengths);
    put_filled(out, b, key)
}

// ACL number `place`, counted from 0, with no scope yet.
pub fn add_acl(device: &mut Record, place: usize, identity: i64, key: &[u8])
    requires { (place < 8) × (length key.now ≤ 64) }
    ensures { device.new ≡ put_acl device.old place (word_of identity) key.now }
{
    device[ACL_COUNT] = place as u8 + 1;
    put_acl(device, ACLS + place * ACL_BYTES, identity, key);
}

fn put_scope(out: &mut [u8], at: usize, offset: u8, mask: u16, tls: bool, value: &[u8]) -> usize
    requires { (at + 72 ≤ length out.old) × (length value.now ≤ 64) }
    ensures { Wrote at result
        (scope_bytes (record { offset = offset; value = value.now; permissions = mask; tls_required = tls }))
        out.old out.new }
{
    let [high, low] = mask.to_be_bytes();
    let head = [offset, value.len() as u8, high, low, flag_of(tls), 0, 0, 0];
    let b = put_bytes(out, at, &head);
    put_filled(out, b, value)
}

// Scope number `number` of ACL number `place`, both counted from 0.
pub fn add_scope(
    device: &mut Record,
    place: usize,
    number: usize,
    offset: u8,
    mask: u16,
    tls: bool,
    value: &[u8],
)
    requires { (place < 8) × (number < 4) × (length value.now ≤ 64) }
    ensures { device.new ≡ put_scope device.old place number
        (record { offset = offset; value = value.now; permissions = mask; tls_required = tls }) }
{
    let a = ACLS + place * ACL_BYTES;
    device[a + SCOPE_COUNT] = number as u8 + 1;
    put_scope(
        device,
        a + SCOPES + number * SCOPE_BYTES,
        offset,
        mask,
        tls,
        value,
    );
}
