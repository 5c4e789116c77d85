// GET, GETVERSION, GETNEXT and GETPREVIOUS: what the store has under a key or beside it, shown in a reply.
#![tactic(auto)]

ghost use Rattle.std.specs.Prelude.{◌≡◌, ◌≤◌, length};
ghost use Rattle.store_layout.specs.Store.{Good};
ghost use Rattle.protocol.specs.State.{State};
ghost use Rattle.protocol.specs.Judge.{shown, version_shown, entry_of};
ghost use Rattle.operation_get.specs.Shown.{PartsInside, Showing, entry_shown};
ghost use Rattle.request_parts.specs.Views.{KeyValueLies, key_value_view};
ghost use Rattle.perform_get.specs.Sought.{Looks, sought};
ghost use Rattle.reply_send.specs.Sent.{replied};
ghost use Rattle.reply_send.specs.Answers.{Answers};

use access_record::Record;
use operation_visible::Viewer;
use perform_entry::show;
use protocol::status::NOT_FOUND;
use reply_command::ReplyTo;
use reply_send::send::{key_value_reply, status};
use request_numbers::flag_of;
use request_parts::KeyValue;
use store_layout::Parts;

// The version of an entry, or NOT_FOUND.
fn show_version(
    out: &mut [u8],
    signing_key: &[u8],
    reply_to: ReplyTo,
    store: &[u8],
    found: Option<Parts>,
) -> usize
    requires { (4096 ≤ length out.old) × (length signing_key.now ≤ 64) × PartsInside store.now found }
    ensures { (t : State)
        → Answers (λ s. replied reply_to signing_key.now (version_shown s (entry_shown store.now found))) t out result t }
{
    match found {
        Some(parts) => {
            let start = parts.version.start;
            let end = start + parts.version.len;
            key_value_reply(out, signing_key, reply_to, &store[start..end])
        }
        None => status(out, signing_key, reply_to, NOT_FOUND),
    }
}

// Which entry is asked for by a key: the key's own, or the next or the previous one that a viewer sees.
#[derive(Drop)]
pub enum Which {
    Own,
    Next(Viewer),
    Previous(Viewer),
}

fn find_entry(which: Which, store: &[u8], device: &Record, key: &[u8]) -> Option<Parts>
    requires { Good store.now × Looks device.now which }
    ensures { Showing store.now result (λ s. sought which device.now s key.now) }
{
    match which {
        Which::Own => operation_get::get(store, key),
        Which::Next(viewer) => operation_get::get_next(store, device, viewer, key),
        Which::Previous(viewer) => operation_get::get_previous(store, device, viewer, key),
    }
}

pub fn get(
    out: &mut [u8],
    signing_key: &[u8],
    reply_to: ReplyTo,
    which: Which,
    store: &[u8],
    device: &Record,
    command: &[u8],
    key_value: KeyValue,
) -> usize
    requires { (4096 ≤ length out.old) × (length signing_key.now ≤ 64) × Good store.now × KeyValueLies command.now key_value
        × Looks device.now which }
    ensures { (t : State) → t.store ≡ store.now
        → let asked = key_value_view command.now key_value in
        Answers (λ s. replied reply_to signing_key.now
        (shown s asked.metadata_only (sought which device.now s asked.key))) t out result t }
{
    let start = key_value.key.start;
    let end = start + key_value.key.len;
    let found = find_entry(which, store, device, &command[start..end]);
    show(
        out,
        signing_key,
        reply_to,
        store,
        found,
        flag_of(key_value.metadata),
    )
}

pub fn get_version(
    out: &mut [u8],
    signing_key: &[u8],
    reply_to: ReplyTo,
    store: &[u8],
    command: &[u8],
    key_value: KeyValue,
) -> usize
    requires { (4096 ≤ length out.old) × (length signing_key.now ≤ 64) × Good store.now × KeyValueLies command.now key_value }
    ensures { (t : State) → t.store ≡ store.now
        → let asked = key_value_view command.now key_value in
        Answers (λ s. replied reply_to signing_key.now (version_shown s (entry_of s asked.key))) t out result t }
{
    let start = key_value.key.start;
    let end = start + key_value.key.len;
    let found = operation_get::get(store, &command[start..end]);
    show_version(out, signing_key, reply_to, store, found)
}
