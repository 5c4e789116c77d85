// The compression function of SHA-1 (FIPS 180-4): the hash value after one block more.
#![tactic(auto)]

ghost use Rattle.std.specs.Prelude.{◌≡◌, ◌+◌, ◌<◌, ◌≤◌, length};
ghost use Rattle.signature_sha1_compression.specs.Compression.{Ch, Parity, Maj, turned};
ghost use Rattle.signature_sha1_compression.specs.Compression.{word as word_at, rounds as rounds_of, compress as compressed};
ghost use Rattle.signature_sha1_compression.specs.Ring.{Ring, TakesWord};
ghost use Rattle.signature_sha1_compression.specs.Rounds.{Advances, Twenty};

// The five words of a hash value, and of the working variables.
#[derive(Clone, Copy, PartialEq, Eq)]
pub struct State {
    pub a: u32,
    pub b: u32,
    pub c: u32,
    pub d: u32,
    pub e: u32,
}

fn ch(x: u32, y: u32, z: u32) -> u32
    ensures { result ≡ Ch x y z }
{
    (x & y) ^ (!x & z)
}

fn parity(x: u32, y: u32, z: u32) -> u32
    ensures { result ≡ Parity x y z }
{
    x ^ y ^ z
}

fn maj(x: u32, y: u32, z: u32) -> u32
    ensures { result ≡ Maj x y z }
{
    (x & y) ^ (x & z) ^ (y & z)
}

// One round: m is the value of its function, k its constant and w its schedule word.
fn round(s: State, m: u32, k: u32, w: u32) -> State
    ensures { result ≡ turned m k w s }
{
    State {
        a: s.a
            .rotate_left(5)
            .wrapping_add(m)
            .wrapping_add(s.e)
            .wrapping_add(k)
            .wrapping_add(w),
        b: s.a,
        c: s.b.rotate_left(30),
        d: s.c,
        e: s.d,
    }
}

fn word(s: &[u8], at: usize) -> u32
    requires { at + 4 ≤ length s.now }
    ensures { result ≡ word_at s.now at }
{
    u32::from_be_bytes([s[at], s[at + 1], s[at + 2], s[at + 3]])
}

// The first sixteen schedule words of a block: the ring before round 0.
fn first_words(m: &[u8]) -> [u32; 16]
    requires { length m.now ≡ 64 }
    ensures { Ring m.now 16 result }
{
    let mut w = [0u32; 16];
    for t in 0..16 {
        w[t] = word(m, 4 * t);
    }
    w
}

// Word t, none of the first sixteen: made of four words of the ring, and put in the place of the oldest.
fn make_word(w: &mut [u32; 16], t: usize) -> u32
    requires { 16 ≤ t }
    ensures { TakesWord t w.old w.new result }
{
    let oldest = w[(t - 16) % 16];
    let x = w[(t - 3) % 16] ^ w[(t - 8) % 16] ^ w[(t - 14) % 16] ^ oldest;
    let made = x.rotate_left(1);
    w[(t - 16) % 16] = made;
    made
}

// The schedule word that round t takes from the ring.
fn take_word(w: &mut [u32; 16], t: usize) -> u32
    ensures { TakesWord t w.old w.new result }
{
    if t < 16 {
        return w[t];
    }
    make_word(w, t)
}

// The twenty rounds from `from` on, whose function is g and whose constant is k.
fn twenty_rounds<F: Fn(u32, u32, u32) -> u32>(
    w: &mut [u32; 16],
    s: State,
    from: usize,
    g: F,
    k: u32,
) -> State
    requires callable { F.IsAlwaysCallable g }
    requires rounds { Twenty (λ x y z r. F.post g x y z r) k from }
    ensures { Advances from (from + 20) w.old s w.new result }
{
    let mut v = s;
    for t in from..from + 20 {
        v = round(v, g(v.b, v.c, v.d), k, take_word(w, t));
    }
    v
}

fn rounds(m: &[u8], s: State) -> State
    requires { length m.now ≡ 64 }
    ensures { result ≡ rounds_of m.now s 80 }
{
    let mut w = first_words(m);
    let a = twenty_rounds(&mut w, s, 0, ch, 0x5a827999);
    let b = twenty_rounds(&mut w, a, 20, parity, 0x6ed9eba1);
    let c = twenty_rounds(&mut w, b, 40, maj, 0x8f1bbcdc);
    twenty_rounds(&mut w, c, 60, parity, 0xca62c1d6)
}

pub fn compress(h: State, m: &[u8]) -> State
    requires { length m.now ≡ 64 }
    ensures { result ≡ compressed h m.now }
{
    let v = rounds(m, h);
    State {
        a: h.a.wrapping_add(v.a),
        b: h.b.wrapping_add(v.b),
        c: h.c.wrapping_add(v.c),
        d: h.d.wrapping_add(v.d),
        e: h.e.wrapping_add(v.e),
    }
}
