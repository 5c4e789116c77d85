// GETKEYRANGE: the keys of a range that a viewer sees, shown in a reply.
#![tactic(auto)]

ghost use Rattle.std.specs.Prelude.{◌≡◌, [], ◌≤◌, length};
ghost use Rattle.base_definitions.specs.Lists.{only};
ghost use Rattle.access_record.specs.Record.{Placed};
ghost use Rattle.access_permission.specs.Permissions.{RANGE};
ghost use Rattle.store_layout.specs.Store.{Good};
ghost use Rattle.protocol.specs.State.{State, entries};
ghost use Rattle.protocol.specs.Judge as judge;
ghost use Rattle.protocol.specs.Judge.{succeeds, keys_of};
ghost use Rattle.operation_visible.specs.Seen.{seen_by};
ghost use Rattle.request_parts.specs.Views.{RangeLies, range_view};
ghost use Rattle.reply_send.specs.Sent.{replied};
ghost use Rattle.reply_send.specs.Answers.{Answers};

use access_record::Record;
use operation_range::{RangeOptions, range_places};
use operation_visible::Viewer;
use reply_command::ReplyTo;
use reply_range::whole::put_range;
use request_numbers::{flag_of, number_or};
use request_parts::Range;

pub fn get_key_range(
    out: &mut [u8],
    signing_key: &[u8],
    reply_to: ReplyTo,
    viewer: Viewer,
    store: &[u8],
    device: &Record,
    command: &[u8],
    range: Range,
) -> usize
    requires { (4096 ≤ length out.old) × (length signing_key.now ≤ 64) × Good store.now
        × RangeLies command.now range × ((range_view command.now range).max_returned ≤ 32) × Placed device.now viewer.acl }
    ensures { (t : State) → t.store ≡ store.now
        → let asked = range_view command.now range in
        Answers (λ s. replied reply_to signing_key.now
        (succeeds s (judge.range (keys_of asked (only (seen_by device.now viewer RANGE) (entries s)))) [])) t out result t }
{
    let start = range.start.start;
    let end = range.end.start;
    let mut places = [0u8; 32];
    let count = range_places(
        store,
        device,
        viewer,
        &command[start..start + range.start.len],
        &command[end..end + range.end.len],
        RangeOptions {
            start_inclusive: flag_of(range.first),
            end_inclusive: flag_of(range.last),
            most: number_or(range.limit, 32) as usize,
            reverse: flag_of(range.reverse),
        },
        &mut places,
    );
    put_range(out, signing_key, reply_to, store, &places, count)
}
