// GET, GETNEXT and GETPREVIOUS: an entry of the store, shown in a reply.
#![tactic(auto)]

ghost use Rattle.std.specs.Prelude.{cond, ◌≡◌, ◌≤◌, length, Some};
ghost use Rattle.protocol.specs.State.{State};
ghost use Rattle.protocol.specs.Judge.{shown};
ghost use Rattle.operation_get.specs.Shown.{PartsInside, entry_shown};
ghost use Rattle.reply_send.specs.Sent.{replied};
ghost use Rattle.reply_send.specs.Answers.{Answers};

use protocol::status::NOT_FOUND;
use reply_command::ReplyTo;
use reply_send::send::status;
use store_layout::Parts;

// The length of a value, none of it with metadataOnly.
fn shown_length(metadata: bool, len: usize) -> usize
    ensures { (result ≡ cond metadata 0 len) × (result ≤ len) }
{
    if metadata { 0 } else { len }
}

// An entry, or NOT_FOUND.
pub fn show(
    out: &mut [u8],
    signing_key: &[u8],
    reply_to: ReplyTo,
    store: &[u8],
    found: Option<Parts>,
    metadata: bool,
) -> usize
    requires { (4096 ≤ length out.old) × (length signing_key.now ≤ 64) × PartsInside store.now found }
    ensures { (t : State)
        → Answers (λ s. replied reply_to signing_key.now (shown s metadata (entry_shown store.now found))) t out result t }
{
    match found {
        Some(parts) => show_entry(out, signing_key, reply_to, store, parts, metadata),
        None => status(out, signing_key, reply_to, NOT_FOUND),
    }
}

fn show_entry(
    out: &mut [u8],
    signing_key: &[u8],
    reply_to: ReplyTo,
    store: &[u8],
    parts: Parts,
    metadata: bool,
) -> usize
    requires { (4096 ≤ length out.old) × (length signing_key.now ≤ 64) × PartsInside store.now (Some parts) }
    ensures { (t : State)
        → Answers (λ s. replied reply_to signing_key.now (shown s metadata (entry_shown store.now (Some parts)))) t out result t }
{
    let key = parts.key.start;
    let version = parts.version.start;
    let tag = parts.tag.start;
    let value = parts.value.start;
    reply_key_value::put_key_value(
        out,
        signing_key,
        reply_to,
        &store[key..key + parts.key.len],
        &store[version..version + parts.version.len],
        &store[tag..tag + parts.tag.len],
        parts.algorithm as u64,
        &store[value..value + shown_length(metadata, parts.value.len)],
    )
}
