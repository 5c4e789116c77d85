// One ACL of the Security part of a command, with its scopes: judged by the ACL rules and written into a device record.
#![tactic(auto)]

ghost use Rattle.std.specs.Prelude.{◌<◌};
ghost use Rattle.base_definitions.specs.Lists.{map_l};
ghost use Rattle.protocol.specs.Judge.{wanted_scope};
ghost use Rattle.access_table_write.specs.Write.{put_scope, put_scopes};
ghost use Rattle.request_scope.specs.Stands.{StandsScope, StandsAcl, scope_in, acl_in};
ghost use Rattle.request_scope.specs.Scope.{scope_taken};
ghost use Rattle.request_acl.specs.Taken.{Makes, scopes_taken, acl_taken, put_one};

use access_acl_write::{add_acl, add_scope};
use access_record::Record;
use fields_lookup::parts::{Part, open_at, part_of, signed_of};
use fields_repeated::next_part;
use fields_schema::Kind;
use fields_schema::field_number::acl;
use request_scope::read_scope;

// ---- a scope

// The scope in the part p, judged and written as scope `number` of ACL `place`.
pub fn add_scope_from(s: &[u8], p: Part, device: &mut Record, place: usize, number: usize) -> bool
    requires { (place < 8) × (number < 4) × StandsScope s.now p }
    ensures { Makes (scope_taken (scope_in s.now p)) result device.new
        (put_scope device.old place number (wanted_scope (scope_in s.now p))) }
{
    let Some(c) = read_scope(s, p) else {
        return false;
    };
    let start = c.value.start;
    let end = start + c.value.len;
    add_scope(
        device,
        place,
        number,
        c.offset,
        c.mask,
        c.tls,
        &s[start..end],
    );
    true
}

// ---- an ACL

// The scopes of the ACL in the part p, judged and written as those of ACL `place`.
fn add_scopes(s: &[u8], p: Part, device: &mut Record, place: usize) -> bool
    requires { (place < 8) × StandsAcl s.now p }
    ensures { Makes (scopes_taken (acl_in s.now p).scopes) result device.new
        (put_scopes device.old place 0 (map_l wanted_scope (acl_in s.now p).scopes)) }
{
    let mut left = p;
    for n in 0..4usize {
        let Some((part, rest)) = next_part(s, left, acl::SCOPE) else {
            return 0 < n;
        };
        if !add_scope_from(s, part, device, place, n) {
            return false;
        }
        left = rest;
    }
    next_part(s, left, acl::SCOPE).is_none()
}

// The ACL in the part p, judged and written as ACL `place`.
pub fn add_acl_from(s: &[u8], p: Part, device: &mut Record, place: usize) -> bool
    requires { (place < 8) × StandsAcl s.now p }
    ensures { Makes (acl_taken (acl_in s.now p)) result device.new (put_one device.old place (acl_in s.now p)) }
{
    let t = open_at(s, p, Kind::Acl);
    let key = part_of(s, p, t, acl::KEY);
    let Some(identity) = signed_of(t, acl::IDENTITY) else {
        return false;
    };
    if key.len < 1 {
        return false;
    }
    if 64 < key.len {
        return false;
    }
    let start = key.start;
    let end = start + key.len;
    add_acl(device, place, identity, &s[start..end]);
    add_scopes(s, p, device, place)
}
