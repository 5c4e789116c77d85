// One block judged: blank, its sum wrong, another rule broken, or sound.
ghost use Rattle.std.specs.Prelude.{◌≡◌, length};
ghost use Rattle.store_rescue.specs.State.{state_of};

// What a block is found to be, the first that applies.
#[derive(Drop)]
pub enum BlockState {
    Blank,
    SumWrong,
    RuleBroken,
    Sound,
}

// Judges one block; its sum is computed once at most.
pub fn judge(b: &[u8]) -> BlockState
    requires { length b.now ≡ 512 }
    ensures { result ≡ state_of b.now }
{
    if store_block::zeros(b) {
        return BlockState::Blank;
    }
    if !store_block_sum_check::sum_right(b) {
        return BlockState::SumWrong;
    }
    if !store_block_codec::rules::rules_kept(b) {
        return BlockState::RuleBroken;
    }
    BlockState::Sound
}
