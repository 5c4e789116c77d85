// The keys that a range asks for, document 01, "What each does", and document 02, CR 2: as places of the store, in the order of the reply.
#![tactic(auto)]

ghost use Rattle.std.specs.Prelude.{cond, ◌≡◌, ◌+◌, ◌≤◌, length, take};
ghost use Rattle.base_definitions.specs.Lists.{map_l, only};
ghost use Rattle.access_record.specs.Record.{Placed};
ghost use Rattle.access_permission.specs.Permissions.{RANGE};
ghost use Rattle.store_layout.specs.Store.{entries_of, Good};
ghost use Rattle.store_layout.specs.Entries.{below, up_to};
ghost use Rattle.protocol.specs.Judge.{keys_of};
ghost use Rattle.operation_visible.specs.Runs.{along};
ghost use Rattle.operation_visible.specs.Seen.{seen_by};
ghost use Rattle.operation_range.specs.Keys.{key_of, keys_at};
ghost use Rattle.operation_range.specs.Range.{range_by};

use access_permission::RANGE;
use access_record::Record;
use operation_visible::{Run, Viewer, skip_hidden};

// What a range asks for beside its two keys: whether it has them, how many keys at most, and whether from the last one down.
#[derive(Drop)]
pub struct RangeOptions {
    pub start_inclusive: bool,
    pub end_inclusive: bool,
    pub most: usize,
    pub reverse: bool,
}

// The first place of a range that starts at a key, inclusive or not.
fn bound(store: &[u8], key: &[u8], inclusive: bool) -> usize
    requires { Good store.now }
    ensures { result ≡ cond inclusive
        (below key.now (entries_of store.now))
        (up_to key.now (entries_of store.now)) }
{
    if inclusive {
        store_bounds::first_from(store, key)
    } else {
        store_bounds::first_above(store, key)
    }
}

// The places of a run whose keys the viewer may list, in its order, the first `most`: how many they are.
fn list_visible(
    store: &[u8],
    device: &Record,
    viewer: Viewer,
    run: Run,
    most: usize,
    places: &mut [u8],
) -> usize
    requires { Good store.now × Placed device.now viewer.acl × (run.first + run.count ≤ 256)
        × (most ≤ length places.old) }
    ensures { (keys_at (entries_of store.now) (take result places.new)
        ≡ take most (map_l key_of (only (seen_by device.now viewer RANGE) (along run (entries_of store.now))))) × (result ≤ most) }
{
    let mut rest = run;
    for n in 0..most {
        let left = skip_hidden(store, device, viewer, RANGE, rest);
        if left.count == 0 {
            return n;
        }
        places[n] = left.first as u8;
        rest = left.rest();
    }
    most
}

// The places whose keys a range lists, in its order: how many they are.
pub fn range_places(
    store: &[u8],
    device: &Record,
    viewer: Viewer,
    start: &[u8],
    end: &[u8],
    options: RangeOptions,
    places: &mut [u8],
) -> usize
    requires { Good store.now × Placed device.now viewer.acl × (options.most ≤ length places.old) }
    ensures { (keys_at (entries_of store.now) (take result places.new)
        ≡ keys_of (range_by start.now end.now options)
        (only (seen_by device.now viewer RANGE) (entries_of store.now))) × (result ≤ options.most) }
{
    let low = bound(store, start, options.start_inclusive);
    let high = bound(store, end, !options.end_inclusive);
    let first = if options.reverse {
        high.saturating_sub(1)
    } else {
        low
    };
    let run = Run {
        first,
        count: high.saturating_sub(low),
        reverse: options.reverse,
    };
    list_visible(store, device, viewer, run, options.most, places)
}
