// The value of a field, read by the form that its rule gives it.
#![tactic(auto)]

ghost use Rattle.std.specs.Prelude.{◌≡◌, List, ℕ, ◌+◌, ◌≤◌, ◌<◌, length, take, drop, IfSome};
ghost use Rattle.fields_wire_reader.specs.FieldAnswer.{EndsFound, asked_value};
ghost use Rattle.fields_schema.specs.Tree.{of_int, of_bytes, of_fixed, decode};
ghost use Rattle.fields_value.specs.Taken.{means_taken, InsideTaken};

use fields_schema::{Form, Kind};
use fields_schema_strict::named;
use fields_wire_reader::{Found, Held};

// An int32 or enum is from -2^31 to 2^31 - 1, in two's complement.
const INT32_END: u64 = 1 << 31;

const INT32_LEAST: u64 = u64::MAX << 31;

// What a field holds, as its form reads it: a number, bytes, the four bytes of a float, a message of a kind.
#[derive(Clone, Copy)]
pub enum Taken {
    Number(u64),
    Slice {
        start: usize,
        len: usize,
    },
    Fixed {
        start: usize,
    },
    Inside {
        kind: Kind,
        start: usize,
        len: usize,
    },
}

fn take_int(f: Form, v: u64) -> Option<Taken>
    ensures { (s : List ℕ) → (means_taken s result ≡ of_int f v) × IfSome result (InsideTaken s) }
{
    let fits = match f {
        Form::Int64 => true,
        Form::Int32 => v < INT32_END || INT32_LEAST <= v,
        Form::Named(e) => named(e, v),
        Form::Flag => return Some(Taken::Number(u64::from(v != 0))),
        _ => false,
    };
    fits.then_some(Taken::Number(v))
}

fn take_bytes(f: Form, start: usize, len: usize) -> Option<Taken>
    ensures { ((s : List ℕ) → means_taken s result ≡ of_bytes f (take len (drop start s)))
        × ((s : List ℕ) → start + len ≤ length s → len < length s → IfSome result (InsideTaken s)) }
{
    match f {
        Form::Bytes => Some(Taken::Slice { start, len }),
        Form::Opaque => Some(Taken::Slice { start: 0, len: 0 }),
        Form::Nested(kind) => Some(Taken::Inside { kind, start, len }),
        _ => None,
    }
}

fn take_fixed(f: Form, start: usize) -> Option<Taken>
    ensures { ((s : List ℕ) → means_taken s result ≡ of_fixed f (take 4 (drop start s)))
        × ((s : List ℕ) → start + 4 ≤ length s → IfSome result (InsideTaken s)) }
{
    match f {
        Form::Float => Some(Taken::Fixed { start }),
        _ => None,
    }
}

// What a field holds; none where its form refuses it, or there is no field.
pub fn take_value(form: Form, f: Option<Found>) -> Option<Taken>
    ensures { ((s : List ℕ) → means_taken s result ≡ decode form (asked_value s f))
        × ((s : List ℕ) (at : ℕ) → IfSome f (EndsFound s at) → IfSome result (InsideTaken s)) }
{
    let f = f?;
    match f.held {
        Held::Varint(v) => take_int(form, v),
        Held::Len { start, len } => take_bytes(form, start, len),
        Held::I64 { .. } => None,
        Held::I32 { start } => take_fixed(form, start),
    }
}
