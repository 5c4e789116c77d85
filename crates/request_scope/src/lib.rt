// One scope of the Security part of a command: read, and judged by the ACL rules.
#![tactic(auto)]

ghost use Rattle.std.specs.Prelude.{◌≡◌};
ghost use Rattle.base_integers.specs.Signed.{word_of};
ghost use Rattle.access_record.specs.Table.{offset_good};
ghost use Rattle.request_scope.specs.Stands.{StandsScope, scope_in};
ghost use Rattle.request_scope.specs.Scope.{PermissionsAre, ScopeIs};

use access_permission_set::{is_permission, with_bit};
use fields_lookup::parts::{Part, num_of, open_at, part_of, signed_of};
use fields_repeated::next_num;
use fields_schema::Kind;
use fields_schema::field_number::scope;
use request_numbers::{flag_of, signed_or};

// The set of the permissions of the scope in the part p, if they are good.
pub fn permissions_of(s: &[u8], p: Part) -> Option<u16>
    requires { StandsScope s.now p }
    ensures { PermissionsAre (scope_in s.now p) result }
{
    let mut left = p;
    let mut mask = 0;
    for n in 0..10usize {
        let Some((v, rest)) = next_num(s, left, scope::PERMISSION) else {
            return (0 < n).then_some(mask);
        };
        if !is_permission(v) {
            return None;
        }
        mask = with_bit(mask, v as u8);
        left = rest;
    }
    None
}

// ---- a scope

// A scope that keeps the rules, as the record holds it.
#[derive(Drop)]
pub struct ReadScope {
    pub offset: u8,
    pub mask: u16,
    pub tls: bool,
    pub value: Part,
}

// Is the offset from 0 to 64?
fn offset_good(offset: i64) -> bool
    ensures { result ≡ offset_good (word_of offset) }
{
    0 <= offset && offset <= 64
}

// The scope in the part p, if it keeps the rules.
pub fn read_scope(s: &[u8], p: Part) -> Option<ReadScope>
    requires { StandsScope s.now p }
    ensures { ScopeIs s.now (scope_in s.now p) result }
{
    let t = open_at(s, p, Kind::Scope);
    let value = part_of(s, p, t, scope::VALUE);
    let offset = signed_or(signed_of(t, scope::OFFSET), 0);
    let tls = flag_of(num_of(t, scope::TLS_REQUIRED));
    let mask = permissions_of(s, p)?;
    if !offset_good(offset) {
        return None;
    }
    if 64 < value.len {
        return None;
    }
    Some(ReadScope {
        offset: offset as u8,
        mask,
        tls,
        value,
    })
}
