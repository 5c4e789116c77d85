// What the calls on a store alone say to C: the look-up of a value, and the rescue.
ghost use Rattle.std.specs.Prelude.{◌≡◌};
ghost use Rattle.store_rescue.specs.Rescue.{outcome, rescue_of};
ghost use Rattle.store_local_read.specs.Local.{local_of};
ghost use Rattle.c_calls.specs.Find.{looked, looked_up};

use store_local_read::StoreBad;
use store_rescue::rule::RescueError;

// 0 found, and part is the value's offset in the store and its length; or 1 not found, or refusal 2, and nothing is written.
pub fn find(store: &[u8], key: &[u8], part: &mut [u64; 2]) -> u32
    ensures { looked result part.new ≡ looked_up part.old (local_of store.now key.now) }
{
    match store_local_read::local_find(store, key) {
        Ok(Some(found)) => {
            *part = [found.start as u64, found.len as u64];
            0
        }
        Ok(None) => 1,
        Err(StoreBad) => 2,
    }
}

// 0 done, and every byte of store and report is written; or refusal 2 or 8, and nothing is written.
pub fn rescue(store: &mut [u8], report: &mut [u8]) -> u32
    ensures { outcome result store.new report.new ≡ rescue_of store.old report.old }
{
    match store_rescue::rescue::rescue(store, report) {
        Ok(()) => 0,
        Err(RescueError::StoreBad) => 2,
        Err(RescueError::ReportBad) => 8,
    }
}
