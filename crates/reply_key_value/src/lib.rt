// Whole replies with a keyValue, document 01, "Replies". Each is written from its end to its front into a local array, signed, framed and copied once to
// the start of the lent buffer; the rest of the buffer stays as it is.
#![tactic(auto)]

ghost use Rattle.std.specs.Prelude.{◌≤◌, length};
ghost use Rattle.fields_write_bytes.specs.Pushed.{Starts};
ghost use Rattle.protocol.specs.Judge.{key_value};
ghost use Rattle.reply_command.specs.Repeated.{signed_reply_to};

use protocol::status::SUCCESS;
use reply_command::{ReplyTo, push_header, push_key_value, push_status};
use reply_envelope::finish;

// A whole signed reply of success with a keyValue and a value.
pub fn put_key_value(
    out: &mut [u8],
    signing_key: &[u8],
    reply_to: ReplyTo,
    key: &[u8],
    version: &[u8],
    tag: &[u8],
    algorithm: u64,
    value: &[u8],
) -> usize
    requires { (length key.now ≤ 64) × (length version.now ≤ 16) × (length tag.now ≤ 32) × (length value.now ≤ 384)
        × (4096 ≤ length out.old) × (length signing_key.now ≤ 64) }
    ensures { Starts result (signed_reply_to reply_to signing_key.now
        (key_value key.now version.now tag.now algorithm) 1 value.now)
        out.old out.new }
{
    let mut s = [0u8; 1024];
    let end = fields_write_bytes::push_bytes(&mut s, 1024, value);
    let a = push_status(&mut s, end, SUCCESS);
    let b = push_key_value(&mut s, a, key, version, tag, algorithm);
    let c = push_header(&mut s, b, reply_to);
    let d = finish(&mut s, c, end, signing_key, reply_to.identity);
    fields_write_bytes::copy(out, &s[d..1024])
}
