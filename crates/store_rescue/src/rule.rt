// Why a rescue of a damaged store refuses, and what becomes of one block.
ghost use Rattle.store_block.specs.Block.{BlockGood};
ghost use Rattle.store_order_table.specs.Table.{block_at};
ghost use Rattle.store_rescue.specs.Listed.{Listed, Next, Judged};

use crate::state::BlockState;
use store_block::offsets::{BLOCK_BYTES, KEY};

#[derive(Clone, Copy, Debug, PartialEq, Eq)]
pub enum RescueError {
    StoreBad,
    ReportBad,
}

// A block's report byte, and how many blocks are kept up to it.
#[derive(Drop)]
pub struct Step {
    pub byte: u8,
    pub kept: usize,
}

// Keeps the sound block i, unless a block that is kept has its key.
fn keep(store: &[u8], order: &mut [u8], kept: usize, i: usize) -> Step
    requires { Listed store.now i kept order.old × (Next store.now i × BlockGood (block_at store.now i)) }
    ensures { Judged store.now i kept order.old result.byte result.kept order.new }
{
    let a = i * BLOCK_BYTES;
    let s = a + KEY;
    let e = s + base_integers::as_usize::wide(store[a + 1]);
    match store_order_table::find(store, &order[0..kept], &store[s..e]) {
        Ok(_) => Step { byte: 4, kept },
        Err(p) => {
            store_order_table::insert(order, kept, p, i as u8);
            Step {
                byte: 1,
                kept: kept + 1,
            }
        }
    }
}

// Keeps the next block i if it is sound and its key is new.
pub fn admit(store: &[u8], order: &mut [u8], kept: usize, i: usize) -> Step
    requires { Listed store.now i kept order.old × Next store.now i }
    ensures { Judged store.now i kept order.old result.byte result.kept order.new }
{
    let a = i * BLOCK_BYTES;
    let e = a + BLOCK_BYTES;
    match crate::state::judge(&store[a..e]) {
        BlockState::Blank => Step { byte: 0, kept },
        BlockState::SumWrong => Step { byte: 2, kept },
        BlockState::RuleBroken => Step { byte: 3, kept },
        BlockState::Sound => keep(store, order, kept, i),
    }
}
