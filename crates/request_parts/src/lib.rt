// The header, the keyValue and the range of a command by value: what their fields say, and where their parts lie.
#![tactic(auto)]

ghost use Rattle.fields_lookup.specs.Views.{Inside, Reads, bytes_at, tree_of};
ghost use Rattle.request_parts.specs.Views.{HeaderIs, KeyValueIs, RangeIs};

use fields_lookup::parts::{Part, num_of, open_at, part_of, signed_of};
use fields_schema::Kind;
use fields_schema::field_number::{header, key_value, range};

// clusterVersion, connectionID, sequence and messageType.
#[derive(Clone, Copy)]
pub struct Header {
    pub cluster: Option<i64>,
    pub connection: Option<i64>,
    pub sequence: Option<i64>,
    pub kind: Option<u64>,
}

// newVersion, key, dbVersion, tag, algorithm, metadataOnly and force.
#[derive(Clone, Copy)]
pub struct KeyValue {
    pub version: Part,
    pub key: Part,
    pub expected: Part,
    pub tag: Part,
    pub algorithm: Option<u64>,
    pub metadata: Option<u64>,
    pub force: Option<u64>,
}

// startKey, endKey, startInclusive, endInclusive, maxReturned and reverse.
#[derive(Clone, Copy)]
pub struct Range {
    pub start: Part,
    pub end: Part,
    pub first: Option<u64>,
    pub last: Option<u64>,
    pub limit: Option<u64>,
    pub reverse: Option<u64>,
}

pub fn read_header(s: &[u8], p: Part) -> Header
    requires { Inside s.now p × Reads (Kind.Header) (bytes_at s.now p) }
    ensures { HeaderIs (tree_of (Kind.Header) (bytes_at s.now p)) result }
{
    let t = open_at(s, p, Kind::Header);
    Header {
        cluster: signed_of(t, header::CLUSTER_VERSION),
        connection: signed_of(t, header::CONNECTION_ID),
        sequence: signed_of(t, header::SEQUENCE),
        kind: num_of(t, header::MESSAGE_TYPE),
    }
}

pub fn read_key_value(s: &[u8], p: Part) -> KeyValue
    requires { Inside s.now p × Reads (Kind.KeyValue) (bytes_at s.now p) }
    ensures { KeyValueIs s.now (tree_of (Kind.KeyValue) (bytes_at s.now p)) result }
{
    let t = open_at(s, p, Kind::KeyValue);
    let version = part_of(s, p, t, key_value::NEW_VERSION);
    let key = part_of(s, p, t, key_value::KEY);
    KeyValue {
        version,
        key,
        expected: part_of(s, p, t, key_value::DB_VERSION),
        tag: part_of(s, p, t, key_value::TAG),
        algorithm: num_of(t, key_value::ALGORITHM),
        metadata: num_of(t, key_value::METADATA_ONLY),
        force: num_of(t, key_value::FORCE),
    }
}

pub fn read_range(s: &[u8], p: Part) -> Range
    requires { Inside s.now p × Reads (Kind.Range) (bytes_at s.now p) }
    ensures { RangeIs s.now (tree_of (Kind.Range) (bytes_at s.now p)) result }
{
    let t = open_at(s, p, Kind::Range);
    Range {
        start: part_of(s, p, t, range::START_KEY),
        end: part_of(s, p, t, range::END_KEY),
        first: num_of(t, range::START_KEY_INCLUSIVE),
        last: num_of(t, range::END_KEY_INCLUSIVE),
        limit: num_of(t, range::MAX_RETURNED),
        reverse: num_of(t, range::REVERSE),
    }
}
