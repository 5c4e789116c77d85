// Document 02, CR 2: places of the lent store whose keys a usable scope fits.
#![tactic(auto)]

ghost use Rattle.std.specs.Prelude.{◌≡◌, ◌+◌, ◌≤◌, ◌<◌, get_or};
ghost use Rattle.store_block.specs.Entry.{no_entry};
ghost use Rattle.store_layout.specs.Store.{entries_of, Good};
ghost use Rattle.access_record.specs.Record.{Placed};
ghost use Rattle.operation_visible.specs.Runs.{onward, rest_of, skipped};
ghost use Rattle.operation_visible.specs.Seen.{seen_by};

use access_record::Record;
use access_verdict::verdict::permits;
use store_find::entry_at;

// Who asks to see keys: the place of the identity's ACL, and whether the connection is protected.
#[derive(Clone, Copy)]
pub struct Viewer {
    pub acl: usize,
    pub protected: bool,
}

// Places of the store in a row: the first one, how many, and whether they go down.
#[derive(Clone, Copy)]
pub struct Run {
    pub first: usize,
    pub count: usize,
    pub reverse: bool,
}

impl Run {
    // The run without its first place.
    pub fn rest(self) -> Run
        requires { (0 < self.count) × (self.first + self.count ≤ 256) }
        ensures { (result ≡ rest_of self) × (result.first + result.count ≤ 256) }
    {
        Run {
            first: next_place(self.first, self.reverse),
            count: self.count - 1,
            reverse: self.reverse,
        }
    }
}

// Whether a usable scope with the permission fits the key at a place.
fn is_visible(store: &[u8], device: &Record, viewer: Viewer, permission: u8, i: usize) -> bool
    requires { Good store.now × Placed device.now viewer.acl × (permission < 16) }
    ensures { result ≡ seen_by device.now viewer permission (get_or (entries_of store.now) i no_entry) }
{
    let entry = entry_at(store, i);
    let start = entry.key.start;
    let end = start + entry.key.len;
    permits(
        device,
        viewer.acl,
        viewer.protected,
        permission,
        &store[start..end],
    )
}

// The place after another.
pub fn next_place(i: usize, reverse: bool) -> usize
    requires { i ≤ 256 }
    ensures { result ≡ onward reverse i }
{
    if reverse { i.saturating_sub(1) } else { i + 1 }
}

// What is left of a run from its first visible place on.
pub fn skip_hidden(store: &[u8], device: &Record, viewer: Viewer, permission: u8, run: Run) -> Run
    requires { Good store.now × Placed device.now viewer.acl × (permission < 16) × (run.first + run.count ≤ 256) }
    ensures { (result ≡ skipped (seen_by device.now viewer permission) (entries_of store.now) run) × (result.first + result.count ≤ 256) }
{
    // A while: what is left of the run is the answer.
    let mut left = run;
    while 0 < left.count {
        if is_visible(store, device, viewer, permission, left.first) {
            return left;
        }
        left = left.rest();
    }
    left
}
