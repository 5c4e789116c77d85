// Document 01, "What each does": GET, GETVERSION, GETNEXT and GETPREVIOUS over the lent store, the two last by document 02, CR 2.
#![tactic(auto)]

ghost use Rattle.std.specs.Prelude.{◌+◌, ◌≤◌};
ghost use Rattle.base_definitions.specs.Lists.{first, only};
ghost use Rattle.access_record.specs.Record.{Placed};
ghost use Rattle.access_permission.specs.Permissions.{READ};
ghost use Rattle.store_layout.specs.Store.{Good};
ghost use Rattle.store_layout.specs.Entries.{next_of, previous_of};
ghost use Rattle.protocol.specs.State.{entries};
ghost use Rattle.protocol.specs.Judge.{entry_of};
ghost use Rattle.operation_visible.specs.Runs.{along};
ghost use Rattle.operation_visible.specs.Seen.{seen_by};
ghost use Rattle.operation_get.specs.Shown.{Showing};

use access_permission::READ;
use access_record::Record;
use operation_visible::{Run, Viewer, next_place, skip_hidden};
use store_bounds::{first_above, first_from};
use store_layout::Parts;

// Where the parts of the entry under a key lie in the store.
pub fn get(store: &[u8], key: &[u8]) -> Option<Parts>
    requires { Good store.now }
    ensures { Showing store.now result (λ s. entry_of s key.now) }
{
    match store_find::find(store, key) {
        Ok(i) => Some(store_find::entry_at(store, i)),
        Err(_) => None,
    }
}

// The first entry of a run that the viewer may read.
fn first_visible(store: &[u8], device: &Record, viewer: Viewer, run: Run) -> Option<Parts>
    requires { Good store.now × Placed device.now viewer.acl × (run.first + run.count ≤ 256) }
    ensures { Showing store.now result (λ s. first (only (seen_by device.now viewer READ) (along run (entries s)))) }
{
    let rest = skip_hidden(store, device, viewer, READ, run);
    if rest.count == 0 {
        return None;
    }
    Some(store_find::entry_at(store, rest.first))
}

pub fn get_next(store: &[u8], device: &Record, viewer: Viewer, key: &[u8]) -> Option<Parts>
    requires { Good store.now × Placed device.now viewer.acl }
    ensures { Showing store.now result (λ s. next_of key.now (only (seen_by device.now viewer READ) (entries s))) }
{
    let first = first_above(store, key);
    let count = store_layout::count(store) - first;
    let run = Run {
        first,
        count,
        reverse: false,
    };
    first_visible(store, device, viewer, run)
}

pub fn get_previous(store: &[u8], device: &Record, viewer: Viewer, key: &[u8]) -> Option<Parts>
    requires { Good store.now × Placed device.now viewer.acl }
    ensures { Showing store.now result (λ s. previous_of key.now (only (seen_by device.now viewer READ) (entries s))) }
{
    let count = first_from(store, key);
    let first = next_place(count, true);
    let run = Run {
        first,
        count,
        reverse: true,
    };
    first_visible(store, device, viewer, run)
}
