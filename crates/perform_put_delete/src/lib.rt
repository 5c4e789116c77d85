// PUT and DELETE, each done and its reply written.
#![tactic(auto)]

ghost use Rattle.std.specs.Prelude.{◌≡◌, true, false, cond, List, ℕ, ◌≤◌, eqb, length};
ghost use Rattle.store_layout.specs.Store.{Good};
ghost use Rattle.protocol.specs.Failure.{code_of};
ghost use Rattle.protocol.specs.State.{State, with_store};
ghost use Rattle.protocol.specs.Judge.{fails, entry_of, put, delete_by, key_value_good, changed};
ghost use Rattle.request_parts.specs.Views.{KeyValueLies, key_value_view};
ghost use Rattle.reply_send.specs.Sent.{replied};
ghost use Rattle.reply_send.specs.Answers.{Answers};

use protocol::status::Failure;
use reply_command::ReplyTo;
use reply_send::send::{key_value_reply, status};
use request_numbers::{flag_of, number_or};
use request_parts::KeyValue;

// The reply of PUT and DELETE: an empty keyValue where it is done. Where it fails the store is as it was.
fn reply_changed(
    out: &mut [u8],
    signing_key: &[u8],
    reply_to: ReplyTo,
    done: Result<(), Failure>,
) -> usize
    requires { (4096 ≤ length out.old) × (length signing_key.now ≤ 64) }
    ensures { (t : State) (l : List ℕ) → (eqb (code_of done) 1 ≡ false → l ≡ t.store)
        → Answers (λ s. replied reply_to signing_key.now (cond (eqb (code_of done) 1) (changed s l) (fails s (code_of done)))) t out result (with_store t l) }
{
    match done {
        Ok(()) => key_value_reply(out, signing_key, reply_to, &[]),
        Err(failure) => status(out, signing_key, reply_to, failure.number()),
    }
}

// PUT, with its reply.
pub fn put(
    out: &mut [u8],
    signing_key: &[u8],
    reply_to: ReplyTo,
    store: &mut [u8],
    command: &[u8],
    key_value: KeyValue,
    value: &[u8],
) -> usize
    requires { (4096 ≤ length out.old) × (length signing_key.now ≤ 64) × Good store.old × KeyValueLies command.now key_value
        × (key_value_good (key_value_view command.now key_value) ≡ true) × (length value.now ≤ 384) }
    ensures { (t : State) → t.store ≡ store.old
        → let asked = key_value_view command.now key_value in
        Answers (λ s. replied reply_to signing_key.now (put s asked value.now))
        t out result (with_store t store.new) }
{
    let key = key_value.key.start;
    let new = key_value.version.start;
    let old = key_value.expected.start;
    let tag = key_value.tag.start;
    let done = operation_put::put::put(
        store,
        &command[key..key + key_value.key.len],
        &command[new..new + key_value.version.len],
        &command[old..old + key_value.expected.len],
        &command[tag..tag + key_value.tag.len],
        number_or(key_value.algorithm, 0) as u8,
        flag_of(key_value.force),
        value,
    );
    reply_changed(out, signing_key, reply_to, done)
}

// DELETE, with its reply.
pub fn delete(
    out: &mut [u8],
    signing_key: &[u8],
    reply_to: ReplyTo,
    store: &mut [u8],
    command: &[u8],
    key_value: KeyValue,
) -> usize
    requires { (4096 ≤ length out.old) × (length signing_key.now ≤ 64) × Good store.old × KeyValueLies command.now key_value }
    ensures { (t : State) → t.store ≡ store.old
        → let asked = key_value_view command.now key_value in
        Answers (λ s. replied reply_to signing_key.now (delete_by s asked (entry_of s asked.key)))
        t out result (with_store t store.new) }
{
    let key = key_value.key.start;
    let old = key_value.expected.start;
    let force = flag_of(key_value.force);
    let done = operation_put::delete::delete(
        store,
        &command[key..key + key_value.key.len],
        &command[old..old + key_value.expected.len],
        force,
    );
    reply_changed(out, signing_key, reply_to, done)
}
