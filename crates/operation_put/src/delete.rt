// Document 01, "What each does": DELETE over the lent store.
ghost use Rattle.std.specs.Prelude.{◌≡◌};
ghost use Rattle.store_layout.specs.Store.{Good};
ghost use Rattle.protocol.specs.Failure.{code_of};
ghost use Rattle.protocol.specs.Command.{KeyValue};
ghost use Rattle.protocol.specs.Judge.{entry_of, delete_by};
ghost use Rattle.operation_put.specs.PutCode.{Changed};
ghost use Rattle.operation_put.specs.DeleteCode.{delete_code, Deletes};

use crate::version::{Version, compare_version};
use protocol::status::Failure;

fn delete_code(v: Version, force: bool) -> Result<(), Failure>
    ensures { code_of result ≡ delete_code v force }
{
    if force {
        return Ok(());
    }
    match v {
        Version::Same => Ok(()),
        Version::Other => Err(Failure::VersionMismatch),
        Version::Absent => Err(Failure::NotFound),
    }
}

pub fn delete(store: &mut [u8], key: &[u8], old: &[u8], force: bool) -> Result<(), Failure>
    requires { Good store.old }
    ensures { (k : KeyValue) → Deletes k key.now old.now force →
        Changed (λ s. delete_by s k (entry_of s k.key)) (code_of result) store.old store.new }
{
    delete_code(compare_version(store, key, old), force)?;
    store_write::delete::delete(store, key);
    Ok(())
}
