// Replies to whom they are due: those with no body, and those with a keyValue that holds no more than a version.
ghost use Rattle.std.specs.Prelude.{[], ◌≤◌, length};
ghost use Rattle.protocol.specs.State.{State};
ghost use Rattle.protocol.specs.Judge.{fails, succeeds, key_value};
ghost use Rattle.reply_send.specs.Answers.{Answers};
ghost use Rattle.reply_send.specs.Sent.{replied};

use reply_command::ReplyTo;

// A reply with no body.
pub fn status(out: &mut [u8], signing_key: &[u8], reply_to: ReplyTo, code: u64) -> usize
    requires { (4096 ≤ length out.old) × (length signing_key.now ≤ 64) }
    ensures { (t : State) → Answers (λ s. replied reply_to signing_key.now (fails s code)) t out result t }
{
    reply_status::put_status(out, signing_key, reply_to, code)
}

// A reply of success with a keyValue that holds a version, or nothing.
pub fn key_value_reply(
    out: &mut [u8],
    signing_key: &[u8],
    reply_to: ReplyTo,
    version: &[u8],
) -> usize
    requires { (4096 ≤ length out.old) × (length signing_key.now ≤ 64) × (length version.now ≤ 16) }
    ensures { (t : State) →
        Answers (λ s. replied reply_to signing_key.now (succeeds s (key_value [] version.now [] 0) [])) t out result t }
{
    let none = [0u8; 0];
    reply_key_value::put_key_value(out, signing_key, reply_to, &none, version, &none, 0, &none)
}
