// A lent store made blank. What put and delete do to its bytes is said in specs/.
ghost use Rattle.std.specs.Prelude.{◌≡◌, length, replicate};

// Makes every block blank.
pub fn blank(store: &mut [u8])
    ensures { store.new ≡ replicate (length store.old) 0 }
{
    let n = store.len();
    store_block::clear(store, 0, n);
}
