// The types that the GetLogs of a command ask for, as a set of bits.
#![tactic(auto)]

ghost use Rattle.std.specs.Prelude.{◌≡◌, List, ℕ, ◌<◌};
ghost use Rattle.fields_schema.specs.FieldNumbers.{Body-get_log};
ghost use Rattle.fields_schema.specs.Tree.{among, sub_at, tree_in};
ghost use Rattle.fields_lookup.specs.Views.{After, Inside, Reads, bytes_at, tree_of};
ghost use Rattle.request_merged.specs.Types.{log_types};
ghost use Rattle.protocol.specs.Judge.{types_good};
ghost use Rattle.request_log_types.specs.Types.{LogTypes, TypesAre};

use access_permission_set::with_bit;
use fields_lookup::parts::Part;
use fields_repeated::{next_num, next_part};
use fields_schema::Kind;
use fields_schema::field_number::{body, command, get_log};
use protocol::log_type::{CONFIGURATION, MESSAGES, STATISTICS};

// Is this type in the set?
pub fn asks(mask: u16, kind: u8) -> bool
    requires { kind < 8 }
    ensures { (types : List ℕ) → TypesAre types mask → result ≡ among kind types }
{
    (mask >> kind) % 2 == 1
}

// The types before and those of the GetLog in the part p.
fn types_in(s: &[u8], p: Part, before: u16) -> u16
    requires { Inside s.now p × Reads (Kind.GetLog) (bytes_at s.now p) }
    ensures { After LogTypes before result (tree_of (Kind.GetLog) (bytes_at s.now p)) }
{
    let mut left = p;
    let mut mask = before;
    while let Some((value, rest)) = next_num(s, left, get_log::TYPES) {
        mask = with_bit(mask, value as u8);
        left = rest;
    }
    mask
}

// The types before and those of every GetLog of the body in the part p.
fn logs_in(s: &[u8], p: Part, before: u16) -> u16
    requires { Inside s.now p × Reads (Kind.Body) (bytes_at s.now p) }
    ensures { After LogTypes before result (tree_in (sub_at Body-get_log (tree_of (Kind.Body) (bytes_at s.now p)))) }
{
    let mut left = p;
    let mut mask = before;
    while let Some((part, rest)) = next_part(s, left, body::GET_LOG) {
        mask = types_in(s, part, mask);
        left = rest;
    }
    mask
}

// The types that the command asks for, in all its bodies.
pub fn log_types(s: &[u8]) -> u16
    requires { Reads (Kind.Command) s.now }
    ensures { TypesAre (log_types s.now) result }
{
    let mut left = Part {
        has: true,
        start: 0,
        len: s.len(),
    };
    let mut mask = 0;
    while let Some((part, rest)) = next_part(s, left, command::BODY) {
        mask = logs_in(s, part, mask);
        left = rest;
    }
    mask
}

// Is there a type, and none that is not built?
pub fn types_good(mask: u16) -> bool
    ensures { (types : List ℕ) → TypesAre types mask → result ≡ types_good types }
{
    if mask == 0 {
        return false;
    }
    if asks(mask, CONFIGURATION) {
        return false;
    }
    if asks(mask, STATISTICS) {
        return false;
    }
    !asks(mask, MESSAGES)
}
