// What one pass over a message finds: for each singular number, a number or a part of the message.
ghost use Rattle.std.specs.Prelude.{◌≡◌, false};
ghost use Rattle.fields_schema.specs.Tree.{level};
ghost use Rattle.fields_decode.specs.Slots.{slot_of, Tells};

use fields_rule::judge;
use fields_schema::Kind;
use fields_value::Taken;
use fields_wire_reader::read_field;

// Bit n of `has`: number n is there. Its number, or where its bytes start, and how many they are, stand at place n.
#[derive(Clone, Copy)]
pub struct Slots {
    pub ok: bool,
    pub has: u64,
    pub value: [u64; 16],
    pub len: [usize; 16],
}

// What is stored of a field.
#[derive(Clone, Copy)]
pub struct Slot {
    pub value: u64,
    pub len: usize,
}

fn slot_of(w: Taken) -> Slot
    ensures { result ≡ slot_of w }
{
    match w {
        Taken::Number(value) => Slot { value, len: 0 },
        Taken::Fixed { start } => Slot {
            value: start as u64,
            len: 4,
        },
        Taken::Slice { start, len } | Taken::Inside { start, len, .. } => Slot {
            value: start as u64,
            len,
        },
    }
}

fn refused() -> Slots
    ensures { result.ok ≡ false }
{
    Slots {
        ok: false,
        has: 0,
        value: [0; 16],
        len: [0; 16],
    }
}

// One pass over the fields of a message of one kind, from place to place.
pub fn collect(s: &[u8], kind: Kind) -> Slots
    ensures { Tells kind s.now result (level kind s.now) }
{
    let mut seen: u64 = 0;
    let mut value: [u64; 16] = [0; 16];
    let mut len: [usize; 16] = [0; 16];
    // A while: each field says where the next one starts.
    let mut at = 0;
    while at < s.len() {
        let Some(f) = read_field(s, at) else {
            return refused();
        };
        let Ok(judged) = judge(kind, seen, Some(f)) else {
            return refused();
        };
        if let Some(t) = judged {
            let p = slot_of(t.what);
            value[t.number] = p.value;
            len[t.number] = p.len;
            seen = t.seen;
        }
        at = f.next;
    }
    Slots {
        ok: true,
        has: seen,
        value,
        len,
    }
}
