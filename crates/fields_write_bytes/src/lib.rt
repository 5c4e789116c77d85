// Bytes written into a lent buffer. A message is written from its end to its front, so that the length of each part is known when its head
// is due: each writer puts its bytes right before `at` and returns where they start. All other bytes of the buffer stay as they are.
#![tactic(auto)]

ghost use Rattle.std.specs.Prelude.{[], ◌∷◌, ◌≤◌, length};
ghost use Rattle.fields_write_bytes.specs.Pushed.{Pushed, Starts};

pub fn push_byte(out: &mut [u8], at: usize, b: u8) -> usize
    requires { (1 ≤ at) × (at ≤ length out.old) }
    ensures { Pushed result at (b ∷ []) out.old out.new }
{
    let p = at - 1;
    out[p] = b;
    p
}

// The bytes of `src`.
pub fn push_bytes(out: &mut [u8], at: usize, src: &[u8]) -> usize
    requires { (length src.now ≤ at) × (at ≤ length out.old) }
    ensures { Pushed result at src.now out.old out.new }
{
    let p = at - src.len();
    out[p..at].copy_from_slice(src);
    p
}

// The bytes of `src` at the start of `out`; how many they are.
pub fn copy(out: &mut [u8], src: &[u8]) -> usize
    requires { length src.now ≤ length out.old }
    ensures { Starts result src.now out.old out.new }
{
    let n = src.len();
    push_bytes(out, n, src);
    n
}
