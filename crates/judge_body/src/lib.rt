// Step 8: whether the body of a command is right for its operation.
#![tactic(auto)]

ghost use Rattle.std.specs.Prelude.{◌≡◌, List, ℕ, length, true};
ghost use Rattle.fields_schema.specs.Tree.{guard};
ghost use Rattle.protocol.specs.Failure.{fault_of};
ghost use Rattle.protocol.specs.Judge.{broken, fault, present, key_value_good, change_good, range_good, types_good};
ghost use Rattle.judge_body_rules.specs.BodyParts.{security_fault};
ghost use Rattle.request_parts.specs.Views.{KeyValueLies, RangeLies, key_value_view, range_view};
ghost use Rattle.request_command.specs.Views.{BodyLies, body_view};
ghost use Rattle.request_scope.specs.Stands.{StandsSecurity, acls_in};
ghost use Rattle.request_merged.specs.Types.{log_types};
ghost use Rattle.fields_lookup.specs.Views.{Reads};
ghost use Rattle.fields_schema.specs.declared.Kind.TheVariants.{Command};

use access_record::offsets::RECORD_BYTES;
use fields_lookup::parts::Part;
use judge_body_rules::{broken, fault, key_value_good, range_good};
use protocol::Operation;
use protocol::status::Failure;
use request_command::Body;
use request_hmac_algorithm::algorithms_good;
use request_log_types::{log_types, types_good};
use request_numbers::{flag_of, number_or};
use request_parts::{KeyValue, Range};
use request_security::security_table;

// Whether the keyValue is there and its lengths are right.
fn key_value_right(keyed: bool, k: KeyValue) -> bool
    ensures { (s : List ℕ) → KeyValueLies s k → result ≡ present key_value_good (guard keyed (key_value_view s k)) }
{
    keyed && key_value_good(k.key.len, k.version.len, k.expected.len, k.tag.len)
}

// The same for a PUT or DELETE, where metadataOnly must not be true.
fn change_right(keyed: bool, k: KeyValue) -> bool
    ensures { (s : List ℕ) → KeyValueLies s k → result ≡ present change_good (guard keyed (key_value_view s k)) }
{
    !flag_of(k.metadata) && key_value_right(keyed, k)
}

// Whether the range is there with both its keys, and their lengths and maxReturned are right.
fn range_right(ranged: bool, g: Range) -> bool
    ensures { (s : List ℕ) → RangeLies s g → result ≡ present range_good (guard ranged (range_view s g)) }
{
    ranged
        && range_good(
            g.start.has,
            g.start.len,
            g.end.has,
            g.end.len,
            number_or(g.limit, 32),
        )
}

// Whether the getLog is there with a type, and every type may be asked for.
fn log_right(command: &[u8], logged: bool) -> bool
    requires { logged ≡ true → Reads Command command.now }
    ensures { result ≡ present types_good (guard logged (log_types command.now)) }
{
    logged && types_good(log_types(command))
}

// What is wrong with the getLog where the operation uses it.
fn log_code(operation: Operation, command: &[u8], logged: bool) -> Result<(), Failure>
    requires { logged ≡ true → Reads Command command.now }
    ensures { operation ≡ Operation.GetLog → fault_of result ≡ broken (present types_good (guard logged (log_types command.now))) }
{
    match operation {
        Operation::GetLog => broken(log_right(command, logged)),
        _ => Ok(()),
    }
}

// What is wrong with the security part: the ACL rules first, then the algorithms. The table that is made of it is thrown away.
fn security_fault(command: &[u8], security: Part) -> Result<(), Failure>
    requires { StandsSecurity command.now security }
    ensures { fault_of result ≡ security_fault (guard security.has (acls_in command.now security)) }
{
    if !security.has {
        return Err(Failure::InvalidRequest);
    }
    let mut scratch = [0u8; RECORD_BYTES];
    if !security_table(command, security, 0, &mut scratch) {
        return Err(Failure::InvalidRequest);
    }
    if !algorithms_good(command, security) {
        return Err(Failure::NoSuchHmacAlgorithm);
    }
    Ok(())
}

// The same where the operation uses the part.
fn security_code(operation: Operation, command: &[u8], security: Part) -> Result<(), Failure>
    requires { StandsSecurity command.now security }
    ensures { operation ≡ Operation.Security → fault_of result ≡ security_fault (guard security.has (acls_in command.now security)) }
{
    match operation {
        Operation::Security => security_fault(command, security),
        _ => Ok(()),
    }
}

// What is wrong with a body: from the length of the value part.
pub fn body_fault(
    operation: Operation,
    command: &[u8],
    body: Body,
    value: usize,
) -> Result<(), Failure>
    requires { BodyLies command.now body }
    ensures { (v : List ℕ) → length v ≡ value → fault_of result ≡ fault operation (body_view command.now body) v }
{
    let pair = broken(key_value_right(body.keyed, body.entry));
    let change = broken(change_right(body.keyed, body.entry));
    let range = broken(range_right(body.ranged, body.range));
    let setup = broken(body.changed);
    let log = log_code(operation, command, body.logged);
    let security = security_code(operation, command, body.security);
    fault(operation, value, pair, change, range, setup, log, security)
}
