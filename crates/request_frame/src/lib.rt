// Frames, document 01, "Frame and fields": "Byte 0 is 46 hex; bytes 1-4 message length, 5-8 value length; then message, then value."
#![tactic(auto)]

ghost use Rattle.std.specs.Prelude.{◌≡◌, ◌≤◌, ◌<◌, get_or};
ghost use Rattle.protocol.specs.Frame.{num4};
ghost use Rattle.request_frame.specs.Framed.{FramedAs};

// What the input starts with: a proper start of a frame, no frame, or a whole one with the lengths of its message and its value.
#[derive(Clone, Copy, Debug, PartialEq, Eq)]
pub enum Framed {
    More,
    Closes,
    Whole { message: usize, value: usize },
}

// The byte at a place; 0 where none has come.
fn byte_at(input: &[u8], i: usize) -> u8
    ensures { result ≡ get_or input.now i 0 }
{
    input.get(i).copied().unwrap_or(0)
}

// The four bytes from a place on, the highest first.
fn length_at(input: &[u8], i: usize) -> usize
    requires { i ≤ 5 }
    ensures { (result ≡ num4 input.now i) × (result < 4294967296) }
{
    let bytes = [
        byte_at(input, i),
        byte_at(input, i + 1),
        byte_at(input, i + 2),
        byte_at(input, i + 3),
    ];
    u32::from_be_bytes(bytes) as usize
}

// How the input is framed.
pub fn frame_at(input: &[u8]) -> Framed
    ensures { FramedAs input.now result }
{
    if input.len() == 0 {
        return Framed::More;
    }
    if input[0] != 0x46 {
        return Framed::Closes;
    }
    let message = length_at(input, 1);
    if 8192 < message {
        return Framed::Closes;
    }
    let value = length_at(input, 5);
    if 1024 < value {
        return Framed::Closes;
    }
    if input.len() < 9 + message + value {
        return Framed::More;
    }
    Framed::Whole { message, value }
}
