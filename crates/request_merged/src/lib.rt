// Messages of one number in a command or a body, merged.
#![tactic(auto)]

ghost use Rattle.fields_schema.specs.FieldNumbers.{Command-header, Body-key_value, Body-range, Body-setup};
ghost use Rattle.fields_schema.specs.Tree.{done, sub_at, tree_in};
ghost use Rattle.fields_lookup.specs.Views.{Inside, Only, Reads, bytes_at, tree_of};
ghost use Rattle.request_parts.specs.Views.{HeaderIs, KeyValueIs, RangeIs};
ghost use Rattle.request_merged.specs.Setups.{SetupIs};

use fields_later::later;
use fields_lookup::parts::{Part, open_at, signed_of};
use fields_repeated::next_part;
use fields_schema::Kind;
use fields_schema::field_number::{body, command, setup};
use request_parts::{Header, KeyValue, Range, read_header, read_key_value, read_range};
use request_parts_merge::{
    merge_headers, merge_key_values, merge_ranges, no_header, no_key_value, no_range,
};

// Every header of the command in the part p.
fn read_headers(s: &[u8], p: Part) -> Header
    requires { Inside s.now p × Reads (Kind.Command) (bytes_at s.now p) }
    ensures { HeaderIs (tree_in (sub_at Command-header (tree_of (Kind.Command) (bytes_at s.now p)))) result }
{
    let mut left = p;
    let mut h = no_header();
    while let Some((part, rest)) = next_part(s, left, command::HEADER) {
        h = merge_headers(h, read_header(s, part));
        left = rest;
    }
    h
}

// The same, where a is the last one, and the only one unless a singular field of the command was sent twice.
pub fn header_in(s: &[u8], p: Part, a: Part, twice: bool) -> Header
    requires { Inside s.now p × Reads (Kind.Command) (bytes_at s.now p)
        × Only (Kind.Header) s.now a twice (sub_at Command-header (tree_of (Kind.Command) (bytes_at s.now p))) }
    ensures { HeaderIs (tree_in (sub_at Command-header (tree_of (Kind.Command) (bytes_at s.now p)))) result }
{
    let has = a.has;
    if !has {
        return no_header();
    }
    if twice {
        return read_headers(s, p);
    }
    read_header(s, a)
}

// Every keyValue of the body in the part p.
fn read_key_values(s: &[u8], p: Part) -> KeyValue
    requires { Inside s.now p × Reads (Kind.Body) (bytes_at s.now p) }
    ensures { KeyValueIs s.now (tree_in (sub_at Body-key_value (tree_of (Kind.Body) (bytes_at s.now p)))) result }
{
    let mut left = p;
    let mut e = no_key_value();
    while let Some((part, rest)) = next_part(s, left, body::KEY_VALUE) {
        e = merge_key_values(e, read_key_value(s, part));
        left = rest;
    }
    e
}

// The same, where a is the last one, and the only one unless a singular field of the body was sent twice.
pub fn entry_in(s: &[u8], p: Part, a: Part, twice: bool) -> KeyValue
    requires { Inside s.now p × Reads (Kind.Body) (bytes_at s.now p)
        × Only (Kind.KeyValue) s.now a twice (sub_at Body-key_value (tree_of (Kind.Body) (bytes_at s.now p))) }
    ensures { KeyValueIs s.now (tree_in (sub_at Body-key_value (tree_of (Kind.Body) (bytes_at s.now p)))) result }
{
    let has = a.has;
    if !has {
        return no_key_value();
    }
    if twice {
        return read_key_values(s, p);
    }
    read_key_value(s, a)
}

// Every range of the body in the part p.
fn read_ranges(s: &[u8], p: Part) -> Range
    requires { Inside s.now p × Reads (Kind.Body) (bytes_at s.now p) }
    ensures { RangeIs s.now (tree_in (sub_at Body-range (tree_of (Kind.Body) (bytes_at s.now p)))) result }
{
    let mut left = p;
    let mut g = no_range();
    while let Some((part, rest)) = next_part(s, left, body::RANGE) {
        g = merge_ranges(g, read_range(s, part));
        left = rest;
    }
    g
}

// The same, where a is the last one, and the only one unless a singular field of the body was sent twice.
pub fn range_in(s: &[u8], p: Part, a: Part, twice: bool) -> Range
    requires { Inside s.now p × Reads (Kind.Body) (bytes_at s.now p)
        × Only (Kind.Range) s.now a twice (sub_at Body-range (tree_of (Kind.Body) (bytes_at s.now p))) }
    ensures { RangeIs s.now (tree_in (sub_at Body-range (tree_of (Kind.Body) (bytes_at s.now p)))) result }
{
    let has = a.has;
    if !has {
        return no_range();
    }
    if twice {
        return read_ranges(s, p);
    }
    read_range(s, a)
}

fn no_setup() -> Option<i64>
    ensures { SetupIs done result }
{
    None
}

fn read_setup(s: &[u8], p: Part) -> Option<i64>
    requires { Inside s.now p × Reads (Kind.Setup) (bytes_at s.now p) }
    ensures { SetupIs (tree_of (Kind.Setup) (bytes_at s.now p)) result }
{
    let t = open_at(s, p, Kind::Setup);
    signed_of(t, setup::NEW_CLUSTER_VERSION)
}

// Every setup of the body in the part p.
fn read_setups(s: &[u8], p: Part) -> Option<i64>
    requires { Inside s.now p × Reads (Kind.Body) (bytes_at s.now p) }
    ensures { SetupIs (tree_in (sub_at Body-setup (tree_of (Kind.Body) (bytes_at s.now p)))) result }
{
    let mut left = p;
    let mut n = no_setup();
    while let Some((part, rest)) = next_part(s, left, body::SETUP) {
        n = later(n, read_setup(s, part));
        left = rest;
    }
    n
}

// The same, where a is the last one, and the only one unless a singular field of the body was sent twice.
pub fn setup_in(s: &[u8], p: Part, a: Part, twice: bool) -> Option<i64>
    requires { Inside s.now p × Reads (Kind.Body) (bytes_at s.now p)
        × Only (Kind.Setup) s.now a twice (sub_at Body-setup (tree_of (Kind.Body) (bytes_at s.now p))) }
    ensures { SetupIs (tree_in (sub_at Body-setup (tree_of (Kind.Body) (bytes_at s.now p)))) result }
{
    let has = a.has;
    if !has {
        return no_setup();
    }
    if twice {
        return read_setups(s, p);
    }
    read_setup(s, a)
}
