// HMAC (RFC 2104) with SHA-1, and the comparison of a digest that was sent.
#![tactic(auto)]

ghost use Rattle.std.specs.Prelude.{◌≡◌, ◌≤◌, length};
ghost use Rattle.signature_hmac.specs.Hmac.{masked, keyed_words, hmac_answer, mac_answer, verified};

use base_bytes::same;
use signature_sha1::{bytes, hash, hash_after};
use signature_sha1_compression::State;

// A key of at most 64 bytes filled up with zeros, with v added to each byte bit by bit.
fn key_block(key: &[u8], v: u8) -> [u8; 64]
    requires { length key.now ≤ 64 }
    ensures { result ≡ masked v key.now }
{
    let mut b = [v; 64];
    for (i, x) in key.iter().enumerate() {
        b[i] = *x ^ v;
    }
    b
}

// HMAC of a text under a key of at most 64 bytes.
fn keyed(key: &[u8], text: &[u8]) -> State
    requires { (length key.now ≤ 64) × (length text.now ≤ 1048576) }
    ensures { result ≡ keyed_words key.now text.now }
{
    let i = key_block(key, 0x36);
    let d = bytes(hash_after(&i, text));
    let o = key_block(key, 0x5c);
    hash_after(&o, &d)
}

// Why there is no hmac: the key is too long, or else the text.
#[derive(Clone, Copy, PartialEq, Eq, Debug)]
pub enum MacError {
    KeyTooLong,
    TextTooLong,
}

// HMAC-SHA1 of a text of at most 1,048,576 bytes under a key of at most 128, as five words.
pub fn hmac(key: &[u8], text: &[u8]) -> Result<State, MacError>
    ensures { mac_answer result ≡ hmac_answer key.now text.now }
{
    if 128 < key.len() {
        return Err(MacError::KeyTooLong);
    }
    if 1048576 < text.len() {
        return Err(MacError::TextTooLong);
    }
    if key.len() <= 64 {
        return Ok(keyed(key, text));
    }
    let d = bytes(hash(key));
    Ok(keyed(&d, text))
}

// Whether sent is exactly the twenty bytes of the hmac of a text under a key, all of which are looked at; no where there is none.
pub fn verify(key: &[u8], text: &[u8], sent: &[u8]) -> bool
    ensures { result ≡ verified key.now text.now sent.now }
{
    match hmac(key, text) {
        Ok(s) => same(&bytes(s), sent),
        Err(_) => false,
    }
}
