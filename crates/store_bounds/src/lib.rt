// The places in a lent store beside a bound.
#![tactic(auto)]

ghost use Rattle.std.specs.Prelude.{◌≡◌};
ghost use Rattle.store_layout.specs.Store.{entries_of, Good};
ghost use Rattle.store_layout.specs.Entries.{below, up_to};

use store_find::find;

// The first place at or above a bound: how many keys are strictly below it.
pub fn first_from(store: &[u8], bound: &[u8]) -> usize
    ensures { Good store.now → result ≡ below bound.now (entries_of store.now) }
{
    match find(store, bound) {
        Ok(i) => i,
        Err(i) => i,
    }
}

// The first place strictly above a bound: how many keys are below it or equal to it.
pub fn first_above(store: &[u8], bound: &[u8]) -> usize
    ensures { Good store.now → result ≡ up_to bound.now (entries_of store.now) }
{
    match find(store, bound) {
        Ok(i) => i + 1,
        Err(i) => i,
    }
}
