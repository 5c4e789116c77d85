// The Security part of a command: judged by the ACL rules and written as a device record.
#![tactic(auto)]

ghost use Rattle.base_integers.specs.Signed.{word_of};
ghost use Rattle.base_definitions.specs.Lists.{map_l};
ghost use Rattle.protocol.specs.Judge.{wanted_acl, wanted, security_good};
ghost use Rattle.access_record.specs.Record.{table_bytes};
ghost use Rattle.access_table_write.specs.Write.{put_acls};
ghost use Rattle.request_scope.specs.Stands.{StandsSecurity, acls_in};
ghost use Rattle.request_acl.specs.Taken.{Makes};
ghost use Rattle.request_security.specs.Security.{acls_taken};

use access_check::record_good;
use access_record::Record;
use access_table_write::clear_table;
use fields_lookup::parts::Part;
use fields_repeated::next_part;
use fields_schema::field_number::security;
use request_acl::add_acl_from;

// The ACLs of the Security in the part p, judged and written from ACL 0 on.
fn add_acls(s: &[u8], p: Part, device: &mut Record) -> bool
    requires { StandsSecurity s.now p }
    ensures { Makes (acls_taken (acls_in s.now p)) result device.new
        (put_acls device.old 0 (map_l wanted_acl (acls_in s.now p))) }
{
    let mut left = p;
    for n in 0..8usize {
        let Some((part, rest)) = next_part(s, left, security::ACL) else {
            return 0 < n;
        };
        if !add_acl_from(s, part, device, n) {
            return false;
        }
        left = rest;
    }
    next_part(s, left, security::ACL).is_none()
}

// The table that the Security in the part p asks for, judged, and written into the scratch record.
pub fn security_table(s: &[u8], p: Part, version: i64, scratch: &mut Record) -> bool
    requires { StandsSecurity s.now p }
    ensures { Makes (security_good (acls_in s.now p)) result scratch.new
        (table_bytes (wanted (word_of version) (acls_in s.now p))) }
{
    clear_table(scratch, version);
    if !add_acls(s, p, scratch) {
        return false;
    }
    record_good(scratch)
}
