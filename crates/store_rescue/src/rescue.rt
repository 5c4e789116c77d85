// The rescue of a damaged store.
ghost use Rattle.std.specs.Prelude.{◌≡◌, length};
ghost use Rattle.store_layout.specs.Store.{blocks_in};
ghost use Rattle.store_layout.specs.Size.{SizeGood};
ghost use Rattle.store_rescue.specs.Rescue.{outcome, rescue_of, rescue_number};
ghost use Rattle.store_rescue.specs.Survey.{Surveyed};

use crate::rule::RescueError;
use store_block::offsets::BLOCK_BYTES;

// Writes the report, and the numbers of the kept blocks in the order of their keys; answers how many there are.
fn survey(store: &[u8], report: &mut [u8], order: &mut [u8]) -> usize
    requires { SizeGood store.now × ((length report.old ≡ blocks_in store.now) × (length order.old ≡ 128)) }
    ensures { Surveyed store.now result report.new order.new }
{
    let mut kept: usize = 0;
    for i in 0..report.len() {
        let step = crate::rule::admit(store, order, kept, i);
        report[i] = step.byte;
        kept = step.kept;
    }
    kept
}

// Puts the sound blocks of a store in order, of equal keys the earliest, blanks all others, and reports what became of each.
pub fn rescue(store: &mut [u8], report: &mut [u8]) -> Result<(), RescueError>
    ensures { outcome (rescue_number result) store.new report.new ≡ rescue_of store.old report.old }
{
    if !store_layout::size_good(store) {
        return Err(RescueError::StoreBad);
    }
    if report.len() != store.len() / BLOCK_BYTES {
        return Err(RescueError::ReportBad);
    }
    let mut order = [0u8; 128];
    let kept = survey(store, report, &mut order);
    store_arrange::arrange(store, order, kept);
    Ok(())
}
