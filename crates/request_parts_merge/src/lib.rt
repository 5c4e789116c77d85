// No header, keyValue or range; and two of them merged.
#![tactic(auto)]

ghost use Rattle.std.specs.Prelude.{List, ℕ};
ghost use Rattle.fields_schema.specs.Tree.{done};
ghost use Rattle.fields_lookup.specs.Views.{Merges};
ghost use Rattle.request_parts.specs.Views.{HeaderIs, KeyValueIs, RangeIs};

use fields_later::{later, later_part};
use fields_lookup::parts::Part;
use request_parts::{Header, KeyValue, Range};

pub fn no_header() -> Header
    ensures { HeaderIs done result }
{
    Header {
        cluster: None,
        connection: None,
        sequence: None,
        kind: None,
    }
}

pub fn merge_headers(before: Header, after: Header) -> Header
    ensures { Merges HeaderIs before after result }
{
    Header {
        cluster: later(before.cluster, after.cluster),
        connection: later(before.connection, after.connection),
        sequence: later(before.sequence, after.sequence),
        kind: later(before.kind, after.kind),
    }
}

pub fn no_key_value() -> KeyValue
    ensures { (s : List ℕ) → KeyValueIs s done result }
{
    let empty = Part {
        has: false,
        start: 0,
        len: 0,
    };
    KeyValue {
        version: empty,
        key: empty,
        expected: empty,
        tag: empty,
        algorithm: None,
        metadata: None,
        force: None,
    }
}

pub fn merge_key_values(before: KeyValue, after: KeyValue) -> KeyValue
    ensures { (s : List ℕ) → Merges (KeyValueIs s) before after result }
{
    KeyValue {
        version: later_part(before.version, after.version),
        key: later_part(before.key, after.key),
        expected: later_part(before.expected, after.expected),
        tag: later_part(before.tag, after.tag),
        algorithm: later(before.algorithm, after.algorithm),
        metadata: later(before.metadata, after.metadata),
        force: later(before.force, after.force),
    }
}

pub fn no_range() -> Range
    ensures { (s : List ℕ) → RangeIs s done result }
{
    let empty = Part {
        has: false,
        start: 0,
        len: 0,
    };
    Range {
        start: empty,
        end: empty,
        first: None,
        last: None,
        limit: None,
        reverse: None,
    }
}

pub fn merge_ranges(before: Range, after: Range) -> Range
    ensures { (s : List ℕ) → Merges (RangeIs s) before after result }
{
    Range {
        start: later_part(before.start, after.start),
        end: later_part(before.end, after.end),
        first: later(before.first, after.first),
        last: later(before.last, after.last),
        limit: later(before.limit, after.limit),
        reverse: later(before.reverse, after.reverse),
    }
}
