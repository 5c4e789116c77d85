// The hmacAlgorithm of each ACL of the Security part of a command.
#![tactic(auto)]

ghost use Rattle.std.specs.Prelude.{◌≡◌};
ghost use Rattle.protocol.specs.Judge.{algorithms_good};
ghost use Rattle.request_scope.specs.Stands.{StandsAcl, StandsSecurity, acl_in, acls_in};

use fields_lookup::parts::{Part, num_of, open_at};
use fields_repeated::next_part;
use fields_schema::Kind;
use fields_schema::field_number::{acl, security};
use request_numbers::number_or;

fn algorithm_of(s: &[u8], p: Part) -> u64
    requires { StandsAcl s.now p }
    ensures { result ≡ (acl_in s.now p).hmac_algorithm }
{
    let t = open_at(s, p, Kind::Acl);
    number_or(num_of(t, acl::HMAC_ALGORITHM), 1)
}

// Does no ACL of the Security in the part p name another algorithm than 1?
pub fn algorithms_good(s: &[u8], p: Part) -> bool
    requires { StandsSecurity s.now p }
    ensures { result ≡ algorithms_good (acls_in s.now p) }
{
    let mut left = p;
    while let Some((part, rest)) = next_part(s, left, security::ACL) {
        if algorithm_of(s, part) != 1 {
            return false;
        }
        left = rest;
    }
    true
}
