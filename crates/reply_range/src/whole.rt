// The reply of GETKEYRANGE, document 01, "Replies": whole and signed; its body is written by `parts`.
ghost use Rattle.std.specs.Prelude.{[], ◌≤◌, length, take};
ghost use Rattle.fields_write_bytes.specs.Pushed.{Starts};
ghost use Rattle.store_layout.specs.Store.{entries_of, Good};
ghost use Rattle.protocol.specs.Judge.{range};
ghost use Rattle.reply_command.specs.Repeated.{signed_reply_to};
ghost use Rattle.operation_range.specs.Keys.{keys_at};

use protocol::status::SUCCESS;
use reply_command::ReplyTo;

// A whole signed reply of success with the keys of the first `count` of some places of the store.
pub fn put_range(
    out: &mut [u8],
    signing_key: &[u8],
    reply_to: ReplyTo,
    store: &[u8],
    places: &[u8],
    count: usize,
) -> usize
    requires { (4096 ≤ length out.old) × (length signing_key.now ≤ 64) × Good store.now × (count ≤ length places.now) × (count ≤ 32) }
    ensures { Starts result (signed_reply_to reply_to signing_key.now
        (range (keys_at (entries_of store.now) (take count places.now))) 1 [])
        out.old out.new }
{
    let mut s = [0u8; 3072];
    let a = reply_command::push_status(&mut s, 3072, SUCCESS);
    let b = crate::parts::push_range(&mut s, a, store, places, count);
    let c = reply_command::push_header(&mut s, b, reply_to);
    let d = reply_envelope::finish(&mut s, c, 3072, signing_key, reply_to.identity);
    fields_write_bytes::copy(out, &s[d..3072])
}
