// The calls of `c_digest` as the benchmark links them, each under the same clauses.
#![tactic(auto)]

ghost use Rattle.signature_sha1.specs.Sha1.{sha1_answer};
ghost use Rattle.signature_hmac.specs.Hmac.{hmac_answer};
ghost use Rattle.c_digest.specs.Written.{Written};

// 0 and the digest; or 1, and nothing is written.
#[unsafe(no_mangle)]
pub extern "C" fn signature_sha1(text: &[u8], digest: &mut [u8; 20]) -> u32
    ensures { Written (sha1_answer text.now) digest.old result digest.new }
{
    c_digest::signature_sha1(text, digest)
}

// 0 and the digest; or 1 for the key, else 2 for the text, and nothing is written.
#[unsafe(no_mangle)]
pub extern "C" fn signature_hmac(key: &[u8], text: &[u8], digest: &mut [u8; 20]) -> u32
    ensures { Written (hmac_answer key.now text.now) digest.old result digest.new }
{
    c_digest::signature_hmac(key, text, digest)
}
