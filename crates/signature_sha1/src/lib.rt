// SHA-1 (FIPS 180-4).
#![tactic(auto)]

ghost use Rattle.std.specs.Prelude.{◌≡◌, ◌++◌, ◌+◌, ◌<◌, ◌^◌, ◌%◌, length};
ghost use Rattle.signature_sha1.specs.Sha1.{pad, overall, finish as finished, H0, bytes as bytes_of, sha1_words, sha1_answer, digest_answer};
ghost use Rattle.signature_sha1.specs.PaddedBlocks.{marked_block, sized_block};

use signature_sha1_compression::{State, compress};

// The last bytes of a message, fewer than a block, with the byte 80 hex and zeros behind them.
fn marked(rest: &[u8]) -> [u8; 64]
    requires { length rest.now < 64 }
    ensures { result ≡ marked_block rest.now }
{
    let n = rest.len();
    let mut b = [0u8; 64];
    b[..n].copy_from_slice(rest);
    b[n] = 0x80;
    b
}

// The block with the size in bits of a message of n bytes as its last eight bytes.
fn sized(block: [u8; 64], n: usize) -> [u8; 64]
    requires { (length block ≡ 64) × (n < 2 ^ 61) }
    ensures { result ≡ sized_block block n }
{
    let mut b = block;
    b[56..].copy_from_slice(&(8 * n).to_be_bytes());
    b
}

// The hash value after the last bytes of a message of n bytes and the padding: one block more, or two.
fn last(h: State, rest: &[u8], n: usize) -> State
    requires { (length rest.now ≡ n % 64) × (n < 2 ^ 61) }
    ensures { result ≡ overall h (rest.now ++ pad n) }
{
    let b = marked(rest);
    if rest.len() < 56 {
        let c = sized(b, n);
        return compress(h, &c);
    }
    let v = compress(h, &b);
    let d = sized([0; 64], n);
    compress(v, &d)
}

// The hash value of a message of which h has taken `taken` bytes, whole blocks, and text is the rest.
fn finish(h: State, taken: usize, text: &[u8]) -> State
    requires { (taken % 64 ≡ 0) × (taken + length text.now < 2 ^ 61) }
    ensures { result ≡ finished h taken text.now }
{
    let (blocks, rest) = text.as_chunks::<64>();
    let mut v = h;
    for block in blocks {
        v = compress(v, block);
    }
    last(v, rest, taken + text.len())
}

pub fn bytes(s: State) -> [u8; 20]
    ensures { result ≡ bytes_of s }
{
    let mut b = [0u8; 20];
    b[..4].copy_from_slice(&s.a.to_be_bytes());
    b[4..8].copy_from_slice(&s.b.to_be_bytes());
    b[8..12].copy_from_slice(&s.c.to_be_bytes());
    b[12..16].copy_from_slice(&s.d.to_be_bytes());
    b[16..].copy_from_slice(&s.e.to_be_bytes());
    b
}

fn start() -> State
    ensures { result ≡ H0 }
{
    State {
        a: 0x67452301,
        b: 0xefcdab89,
        c: 0x98badcfe,
        d: 0x10325476,
        e: 0xc3d2e1f0,
    }
}

// The hash value of a text.
pub fn hash(text: &[u8]) -> State
    requires { length text.now < 2 ^ 61 }
    ensures { result ≡ sha1_words text.now }
{
    finish(start(), 0, text)
}

// The hash value of a block and a text behind it.
pub fn hash_after(block: &[u8], text: &[u8]) -> State
    requires { (length block.now ≡ 64) × (64 + length text.now < 2 ^ 61) }
    ensures { result ≡ sha1_words (block.now ++ text.now) }
{
    finish(compress(start(), block), 64, text)
}

// SHA-1 of a text of fewer than 2^61 bytes, as five words; none of a longer one.
pub fn sha1(text: &[u8]) -> Option<State>
    ensures { digest_answer result ≡ sha1_answer text.now }
{
    if text.len() < 1 << 61 {
        return Some(hash(text));
    }
    None
}
