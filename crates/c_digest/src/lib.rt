// The calls of `signature_hmac` for C: `c_digest_c` exports them to the benchmark, and `c_abi` passes them on to hosts.
#![tactic(auto)]

ghost use Rattle.signature_sha1.specs.Sha1.{sha1_answer};
ghost use Rattle.signature_hmac.specs.Hmac.{hmac_answer};
ghost use Rattle.c_digest.specs.Written.{Written};

use signature_hmac::MacError;

// 0 and the digest; or 1, and nothing is written.
pub fn signature_sha1(text: &[u8], digest: &mut [u8; 20]) -> u32
    ensures { Written (sha1_answer text.now) digest.old result digest.new }
{
    match signature_sha1::sha1(text) {
        Some(s) => {
            *digest = signature_sha1::bytes(s);
            0
        }
        None => 1,
    }
}

// 0 and the digest; or 1 for the key, else 2 for the text, and nothing is written.
pub fn signature_hmac(key: &[u8], text: &[u8], digest: &mut [u8; 20]) -> u32
    ensures { Written (hmac_answer key.now text.now) digest.old result digest.new }
{
    match signature_hmac::hmac(key, text) {
        Ok(s) => {
            *digest = signature_sha1::bytes(s);
            0
        }
        Err(MacError::KeyTooLong) => 1,
        Err(MacError::TextTooLong) => 2,
    }
}
