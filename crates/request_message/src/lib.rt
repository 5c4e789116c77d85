// A message by value: what step 1 reads of it.
#![tactic(auto)]

ghost use Rattle.std.specs.Prelude.{◌≡◌, List, ℕ, false, cond, IfSome};
ghost use Rattle.fields_schema.specs.FieldNumbers.{Message-hmac_auth};
ghost use Rattle.fields_schema.specs.Tree.{done, sub_at, tree_in};
ghost use Rattle.fields_lookup.specs.Views.{Inside, Merges, Only, Reads, bytes_at, num_view, tree_of};
ghost use Rattle.protocol.specs.Reading.{is_one, read_message};
ghost use Rattle.request_message.specs.Messages.{AuthIs, SealedLies, sealed_view};

use fields_decode::nested::reads;
use fields_later::{later, later_part};
use fields_lookup::parts::{Part, num_of, open_at, part_of, sent_twice, signed_of};
use fields_repeated::next_part;
use fields_schema::Kind;
use fields_schema::field_number::{hmac_auth, message};
use protocol::auth_type::HMACAUTH;

#[derive(Drop)]
pub struct Auth {
    pub identity: Option<i64>,
    pub hmac: Part,
}

// What step 1 reads of a message that it does not refuse.
#[derive(Drop)]
pub struct Sealed {
    pub identity: i64,
    pub hmac: Part,
    pub command: Part,
}

fn is_one(n: Option<u64>) -> bool
    ensures { result ≡ is_one (num_view n) }
{
    n.is_some_and(|v| v == HMACAUTH)
}

fn all_of(a: bool, b: bool, c: bool) -> bool
    ensures { result ≡ cond a (cond b c false) false }
{
    a && b && c
}

fn no_auth() -> Auth
    ensures { (s : List ℕ) → AuthIs s done result }
{
    Auth {
        identity: None,
        hmac: Part {
            has: false,
            start: 0,
            len: 0,
        },
    }
}

fn read_auth(s: &[u8], p: Part) -> Auth
    requires { Inside s.now p × Reads (Kind.HmacAuth) (bytes_at s.now p) }
    ensures { AuthIs s.now (tree_of (Kind.HmacAuth) (bytes_at s.now p)) result }
{
    let t = open_at(s, p, Kind::HmacAuth);
    Auth {
        identity: signed_of(t, hmac_auth::IDENTITY),
        hmac: part_of(s, p, t, hmac_auth::HMAC),
    }
}

fn merge_auths(before: Auth, after: Auth) -> Auth
    ensures { (s : List ℕ) → Merges (AuthIs s) before after result }
{
    Auth {
        identity: later(before.identity, after.identity),
        hmac: later_part(before.hmac, after.hmac),
    }
}

// Every HMACauth of the message in the part p.
fn read_auths(s: &[u8], p: Part) -> Auth
    requires { Inside s.now p × Reads (Kind.Message) (bytes_at s.now p) }
    ensures { AuthIs s.now (tree_in (sub_at Message-hmac_auth (tree_of (Kind.Message) (bytes_at s.now p)))) result }
{
    let mut left = p;
    let mut a = no_auth();
    while let Some((part, rest)) = next_part(s, left, message::HMAC_AUTH) {
        a = merge_auths(a, read_auth(s, part));
        left = rest;
    }
    a
}

// The same, where a is the last one, and the only one unless a singular field of the message was sent twice.
fn auth_in(s: &[u8], p: Part, a: Part, twice: bool) -> Auth
    requires { Inside s.now p × Reads (Kind.Message) (bytes_at s.now p)
        × Only (Kind.HmacAuth) s.now a twice (sub_at Message-hmac_auth (tree_of (Kind.Message) (bytes_at s.now p))) }
    ensures { AuthIs s.now (tree_in (sub_at Message-hmac_auth (tree_of (Kind.Message) (bytes_at s.now p)))) result }
{
    let has = a.has;
    if !has {
        return no_auth();
    }
    if twice {
        return read_auths(s, p);
    }
    read_auth(s, a)
}

fn read_sealed(s: &[u8], p: Part) -> Option<Sealed>
    requires { Inside s.now p × Reads (Kind.Message) (bytes_at s.now p) }
    ensures { (sealed_view s.now result ≡ read_message (bytes_at s.now p)) × IfSome result (SealedLies s.now) }
{
    let t = open_at(s, p, Kind::Message);
    let auth_type = num_of(t, message::AUTH_TYPE);
    let a = part_of(s, p, t, message::HMAC_AUTH);
    let command = part_of(s, p, t, message::COMMAND_BYTES);
    let auth = auth_in(s, p, a, sent_twice(t));
    if !all_of(is_one(auth_type), a.has, command.has) {
        return None;
    }
    let identity = auth.identity?;
    Some(Sealed {
        identity,
        hmac: auth.hmac,
        command,
    })
}

// Step 1: the identity, the hmac and the commandBytes of a message.
pub fn read_message(s: &[u8]) -> Option<Sealed>
    ensures { (sealed_view s.now result ≡ read_message s.now) × IfSome result (SealedLies s.now) }
{
    if !reads(s, Kind::Message) {
        return None;
    }
    let whole = Part {
        has: true,
        start: 0,
        len: s.len(),
    };
    read_sealed(s, whole)
}
