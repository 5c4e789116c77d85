// Document 01, "What each does": the dbVersion of PUT and DELETE against the stored version.
ghost use Rattle.std.specs.Prelude.{◌≡◌};
ghost use Rattle.store_layout.specs.Store.{Good};
ghost use Rattle.protocol.specs.State.{State};
ghost use Rattle.protocol.specs.Judge.{entry_of};
ghost use Rattle.operation_put.specs.VersionFound.{version_found, version_fits};

use base_bytes::same;

// How a dbVersion stands to the stored version under a key.
#[derive(Clone, Copy, PartialEq, Eq)]
pub enum Version {
    Same,
    Other,
    Absent,
}

pub fn compare_version(store: &[u8], key: &[u8], old: &[u8]) -> Version
    requires { Good store.now }
    ensures { (s : State) → s.store ≡ store.now → result ≡ version_found old.now (entry_of s key.now) }
{
    match operation_get::get(store, key) {
        Some(p) => {
            let part = p.version;
            let a = part.start;
            let e = a + part.len;
            if same(old, &store[a..e]) {
                return Version::Same;
            }
            Version::Other
        }
        None => Version::Absent,
    }
}

// Whether PUT goes on: by force, with the stored version, or with none for a new key.
pub fn version_fits(v: Version, old: &[u8], force: bool) -> bool
    ensures { result ≡ version_fits v old.now force }
{
    force
        || match v {
            Version::Same => true,
            Version::Other => false,
            Version::Absent => old.is_empty(),
        }
}
