// What stands around a reply's command, document 01, "Replies": its signature, and the frame.
#![tactic(auto)]

ghost use Rattle.std.specs.Prelude.{◌≡◌, ◌∷◌, ◌++◌, ◌+◌, ◌^◌, ◌≤◌, ◌<◌, length};
ghost use Rattle.base_integers.specs.Signed.{word_of};
ghost use Rattle.signature_hmac.specs.Hmac.{hmac as hmac_of};
ghost use Rattle.fields_write_bytes.specs.Pushed.{Pushed};
ghost use Rattle.base_definitions.specs.BigEndian.{be32};
ghost use Rattle.reply_envelope.specs.Frames.{auth_bytes, Finished};

use fields_schema::field_number::{hmac_auth, message};
use protocol::auth_type::HMACAUTH;

// The hmac of a text under a key, neither of them too long.
fn sign(key: &[u8], text: &[u8]) -> [u8; 20]
    requires { (length key.now ≤ 64) × (length text.now ≤ 4096) }
    ensures { result ≡ hmac_of key.now text.now }
{
    match signature_hmac::hmac(key, text) {
        Ok(s) => signature_sha1::bytes(s),
        Err(_) => [0; 20],
    }
}

// authType and HMACauth.
fn push_auth(out: &mut [u8], at: usize, identity: i64, digest: &[u8]) -> usize
    requires { (length digest.now ≤ 20) × (80 ≤ at) × (at ≤ length out.old) }
    ensures { Pushed result at (auth_bytes (word_of identity) digest.now) out.old out.new × (at ≤ result + 80) }
{
    let b = fields_write_bytes_field::push_raw(out, at, hmac_auth::HMAC, digest);
    let c = fields_write_field::push_signed(out, b, hmac_auth::IDENTITY, identity);
    let d = fields_write_field::push_head(out, c, message::HMAC_AUTH, at - c);
    fields_write_field::push_int(out, d, message::AUTH_TYPE, HMACAUTH)
}

// What stands before the message and the value of a frame.
pub fn push_prefix(out: &mut [u8], at: usize, message: usize, value: usize) -> usize
    requires { (9 ≤ at) × (at ≤ length out.old) × (message < 2 ^ 32) × (value < 2 ^ 32) }
    ensures { Pushed result at (0x46 ∷ (be32 message ++ be32 value)) out.old out.new }
{
    let a = fields_write_word::push_be32(out, at, value);
    let b = fields_write_word::push_be32(out, a, message);
    fields_write_bytes::push_byte(out, b, 0x46)
}

// With the command from `at` to `end` and the value from there on: signs the command, and writes all that stands in front of it.
pub fn finish(s: &mut [u8], at: usize, end: usize, key: &[u8], identity: i64) -> usize
    requires { (104 ≤ at) × (at ≤ end) × (end ≤ length s.old) × (length s.old ≤ 4096) × (length key.now ≤ 64) }
    ensures { Finished result at end key.now (word_of identity) s.old s.new × (result ≤ at) }
{
    let value = s.len() - end;
    let h = sign(key, &s[at..end]);
    let a = fields_write_field::push_head(s, at, message::COMMAND_BYTES, end - at);
    let b = push_auth(s, a, identity, &h);
    push_prefix(s, b, end - b, value)
}
