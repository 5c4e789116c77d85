// Whole replies with no body, document 01, "Replies". Each is written from its end to its front into a local array, signed, framed and copied once to the
// start of the lent buffer; the rest of the buffer stays as it is.
#![tactic(auto)]

ghost use Rattle.std.specs.Prelude.{[], ◌≤◌, length};
ghost use Rattle.fields_write_bytes.specs.Pushed.{Starts};
ghost use Rattle.protocol.specs.Judge.{bare};
ghost use Rattle.reply_command.specs.Repeated.{signed_reply_to};

use reply_command::{ReplyTo, push_header, push_status};
use reply_envelope::finish;

// A whole signed reply with no body.
pub fn put_status(out: &mut [u8], signing_key: &[u8], reply_to: ReplyTo, code: u64) -> usize
    requires { (4096 ≤ length out.old) × (length signing_key.now ≤ 64) }
    ensures { Starts result (signed_reply_to reply_to signing_key.now bare code []) out.old out.new }
{
    let mut s = [0u8; 256];
    let a = push_status(&mut s, 256, code);
    let b = push_header(&mut s, a, reply_to);
    let c = finish(&mut s, b, 256, signing_key, reply_to.identity);
    fields_write_bytes::copy(out, &s[c..256])
}
