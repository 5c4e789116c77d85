// Document 01, "What each does": PUT over the lent store.
ghost use Rattle.std.specs.Prelude.{◌≡◌};
ghost use Rattle.store_block.specs.Entry.{entry, Sized};
ghost use Rattle.store_layout.specs.Store.{Good};
ghost use Rattle.protocol.specs.Failure.{code_of};
ghost use Rattle.protocol.specs.Command.{KeyValue};
ghost use Rattle.protocol.specs.Judge.{put};
ghost use Rattle.operation_put.specs.PutCode.{put_code, Puts, Changed};

use crate::version::{compare_version, version_fits};
use protocol::status::Failure;
use store_layout::PutError;

fn put_code(a: Result<(), PutError>) -> Result<(), Failure>
    ensures { code_of result ≡ put_code a }
{
    match a {
        Ok(()) => Ok(()),
        Err(PutError::Full) => Err(Failure::NoSpace),
        Err(PutError::Unfit) => Err(Failure::InvalidRequest),
    }
}

pub fn put(
    store: &mut [u8],
    key: &[u8],
    new: &[u8],
    old: &[u8],
    tag: &[u8],
    algorithm: u8,
    force: bool,
    value: &[u8],
) -> Result<(), Failure>
    requires { Good store.old × Sized (entry key.now new.now tag.now value.now algorithm) }
    ensures { (k : KeyValue) → Puts k key.now new.now old.now tag.now algorithm force →
        Changed (λ s. put s k value.now) (code_of result) store.old store.new }
{
    if !version_fits(compare_version(store, key, old), old, force) {
        return Err(Failure::VersionMismatch);
    }
    put_code(store_write::put::put(store, key, new, tag, value, algorithm))
}
