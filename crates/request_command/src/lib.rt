// A command by value: what its fields say, and where its parts lie.
#![tactic(auto)]

ghost use Rattle.std.specs.Prelude.{◌≡◌, List, true, false, cond, ℕ};
ghost use Rattle.fields_schema.specs.FieldNumbers.{Command-body};
ghost use Rattle.fields_schema.specs.Tree.{done, map_o, sub_at, tree_in};
ghost use Rattle.fields_lookup.specs.Views.{After, Inside, Merges, Only, Reads, bytes_at, tree_of};
ghost use Rattle.protocol.specs.Command.{command_of};
ghost use Rattle.protocol.specs.Reading.{decodes, security_once};
ghost use Rattle.request_command.specs.Views.{BodyIs, BodyLies, CountIs, Secured, request_view};

use fields_decode::nested::reads;
use fields_later::{later, later_part};
use fields_lookup::parts::{Part, open_at, part_of, sent_twice};
use fields_repeated::next_part;
use fields_schema::Kind;
use fields_schema::field_number::{body, command};
use request_merged::{entry_in, header_in, range_in, setup_in};
use request_parts::{Header, KeyValue, Range};
use request_parts_merge::{merge_key_values, merge_ranges, no_header, no_key_value, no_range};

// The parts of a body, each with whether it is there: keyValue, range, setup (its newClusterVersion), getLog (whether it is there) and security.
#[derive(Clone, Copy)]
pub struct Body {
    pub keyed: bool,
    pub entry: KeyValue,
    pub ranged: bool,
    pub range: Range,
    pub changed: bool,
    pub cluster: Option<i64>,
    pub logged: bool,
    pub security: Part,
}

// A command; ok is false where it does not decode.
#[derive(Clone, Copy)]
pub struct Request {
    pub ok: bool,
    pub headed: bool,
    pub header: Header,
    pub body: Body,
}

fn either(a: bool, b: bool) -> bool
    ensures { result ≡ cond a true b }
{
    a || b
}

fn no_body() -> Body
    ensures { (s : List ℕ) → BodyIs s done result }
{
    Body {
        keyed: false,
        entry: no_key_value(),
        ranged: false,
        range: no_range(),
        changed: false,
        cluster: None,
        logged: false,
        security: Part {
            has: false,
            start: 0,
            len: 0,
        },
    }
}

// The body in the part p.
fn read_body(s: &[u8], p: Part) -> Body
    requires { Inside s.now p × Reads (Kind.Body) (bytes_at s.now p) }
    ensures { BodyIs s.now (tree_of (Kind.Body) (bytes_at s.now p)) result }
{
    let t = open_at(s, p, Kind::Body);
    let a = part_of(s, p, t, body::KEY_VALUE);
    let b = part_of(s, p, t, body::RANGE);
    let c = part_of(s, p, t, body::SETUP);
    let d = part_of(s, p, t, body::GET_LOG);
    let security = part_of(s, p, t, body::SECURITY);
    let twice = sent_twice(t);
    let entry = entry_in(s, p, a, twice);
    let range = range_in(s, p, b, twice);
    let cluster = setup_in(s, p, c, twice);
    Body {
        keyed: a.has,
        entry,
        ranged: b.has,
        range,
        changed: c.has,
        cluster,
        logged: d.has,
        security,
    }
}

fn merge_bodies(before: Body, after: Body) -> Body
    ensures { (s : List ℕ) → Merges (BodyIs s) before after result }
{
    Body {
        keyed: either(before.keyed, after.keyed),
        entry: merge_key_values(before.entry, after.entry),
        ranged: either(before.ranged, after.ranged),
        range: merge_ranges(before.range, after.range),
        changed: either(before.changed, after.changed),
        cluster: later(before.cluster, after.cluster),
        logged: either(before.logged, after.logged),
        security: later_part(before.security, after.security),
    }
}

// Every body of the command in the part p.
fn read_bodies(s: &[u8], p: Part) -> Body
    requires { Inside s.now p × Reads (Kind.Command) (bytes_at s.now p) }
    ensures { BodyIs s.now (tree_in (sub_at Command-body (tree_of (Kind.Command) (bytes_at s.now p)))) result }
{
    let mut left = p;
    let mut b = no_body();
    while let Some((part, rest)) = next_part(s, left, command::BODY) {
        b = merge_bodies(b, read_body(s, part));
        left = rest;
    }
    b
}

// The same, where a is the last one, and the only one unless a singular field of the command was sent twice.
fn body_in(s: &[u8], p: Part, a: Part, twice: bool) -> Body
    requires { Inside s.now p × Reads (Kind.Command) (bytes_at s.now p)
        × Only (Kind.Body) s.now a twice (sub_at Command-body (tree_of (Kind.Command) (bytes_at s.now p))) }
    ensures { BodyIs s.now (tree_in (sub_at Command-body (tree_of (Kind.Command) (bytes_at s.now p)))) result }
{
    let has = a.has;
    if !has {
        return no_body();
    }
    if twice {
        return read_bodies(s, p);
    }
    read_body(s, a)
}

// How many securities: those before and that of the body in the part p; 2 for more.
fn securities(s: &[u8], p: Part, before: u64) -> u64
    requires { Inside s.now p × Reads (Kind.Body) (bytes_at s.now p) }
    ensures { After CountIs before result (tree_of (Kind.Body) (bytes_at s.now p)) }
{
    let t = open_at(s, p, Kind::Body);
    let a = part_of(s, p, t, body::SECURITY);
    let has = a.has;
    if !has {
        return before;
    }
    if before == 0 {
        return 1;
    }
    2
}

// How many securities all bodies of the command in the part p have; 2 for more.
fn all_securities(s: &[u8], p: Part) -> u64
    requires { Inside s.now p × Reads (Kind.Command) (bytes_at s.now p) }
    ensures { CountIs (tree_in (sub_at Command-body (tree_of (Kind.Command) (bytes_at s.now p)))) result }
{
    let mut left = p;
    let mut n = 0;
    while let Some((part, rest)) = next_part(s, left, command::BODY) {
        n = securities(s, part, n);
        left = rest;
    }
    n
}

// Whether the bodies of the command in the part p, which have one or not, have at most one security:
// asked only where a singular field of the command was sent twice.
fn secured_once(s: &[u8], p: Part, secured: bool, twice: bool) -> bool
    requires { Inside s.now p × Reads (Kind.Command) (bytes_at s.now p)
        × Secured (tree_in (sub_at Command-body (tree_of (Kind.Command) (bytes_at s.now p)))) secured twice }
    ensures { result ≡ security_once (tree_of (Kind.Command) (bytes_at s.now p)) }
{
    if !secured {
        return true;
    }
    if twice {
        return all_securities(s, p) < 2;
    }
    true
}

// The whole command.
fn read_command(s: &[u8], p: Part) -> Request
    requires { Inside s.now p × Reads (Kind.Command) (bytes_at s.now p) × (bytes_at s.now p ≡ s.now) }
    ensures { (request_view s.now result ≡ map_o command_of (decodes s.now)) × BodyLies s.now result.body }
{
    let t = open_at(s, p, Kind::Command);
    let h = part_of(s, p, t, command::HEADER);
    let b = part_of(s, p, t, command::BODY);
    let twice = sent_twice(t);
    let header = header_in(s, p, h, twice);
    let body = body_in(s, p, b, twice);
    let ok = secured_once(s, p, body.security.has, twice);
    Request {
        ok,
        headed: h.has,
        header,
        body,
    }
}

fn no_request() -> Request
    ensures { (result.ok ≡ false) × ((s : List ℕ) → BodyLies s result.body) }
{
    Request {
        ok: false,
        headed: false,
        header: no_header(),
        body: no_body(),
    }
}

// What a command says; not ok where it does not decode.
pub fn read_request(s: &[u8]) -> Request
    ensures { (request_view s.now result ≡ map_o command_of (decodes s.now)) × BodyLies s.now result.body }
{
    if reads(s, Kind::Command) {
        let whole = Part {
            has: true,
            start: 0,
            len: s.len(),
        };
        return read_command(s, whole);
    }
    no_request()
}
