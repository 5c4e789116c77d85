// The body of the reply of GETKEYRANGE, document 01, "Replies": "range with 8 for each key".
ghost use Rattle.std.specs.Prelude.{◌+◌, ◌≤◌, length, take};
ghost use Rattle.fields_schema.specs.FieldNumbers.{Range-keys};
ghost use Rattle.fields_schema.specs.Tree.{done};
ghost use Rattle.fields_encoding.specs.Encode.{len_field, encode, each};
ghost use Rattle.fields_write_bytes.specs.Pushed.{Pushed};
ghost use Rattle.store_layout.specs.Store.{entries_of, Good};
ghost use Rattle.protocol.specs.Judge.{range};
ghost use Rattle.reply_command.specs.Parts.{body_bytes};
ghost use Rattle.operation_range.specs.Keys.{key_at, keys_at};

use base_integers::as_usize::wide;
use fields_schema::field_number::{body, command, range};

// The key at a place of the store, as a field of a range.
fn push_key(out: &mut [u8], at: usize, store: &[u8], i: usize) -> usize
    requires { Good store.now × (79 ≤ at) × (at ≤ length out.old) }
    ensures { Pushed result at (len_field Range-keys (key_at (entries_of store.now) i)) out.old out.new × (at ≤ result + 79) }
{
    let e = store_find::entry_at(store, i);
    let start = e.key.start;
    let end = start + e.key.len;
    fields_write_bytes_field::push_raw(out, at, range::KEYS, &store[start..end])
}

// The keys of places of the store, in the order of the places.
fn push_keys(out: &mut [u8], at: usize, store: &[u8], places: &[u8], count: usize) -> usize
    requires { Good store.now × (count ≤ length places.now) × (count ≤ 32) × (2528 ≤ at) × (at ≤ length out.old) }
    ensures { Pushed result at (encode (each Range-keys (keys_at (entries_of store.now) (take count places.now)) done))
        out.old out.new × (at ≤ result + 2528) }
{
    let mut p = at;
    for i in (0..count).rev() {
        p = push_key(out, p, store, wide(places[i]));
    }
    p
}

// A body with a range, which is there even when empty.
pub fn push_range(out: &mut [u8], at: usize, store: &[u8], places: &[u8], count: usize) -> usize
    requires { Good store.now × (count ≤ length places.now) × (count ≤ 32) × (2558 ≤ at) × (at ≤ length out.old) }
    ensures { Pushed result at (body_bytes (range (keys_at (entries_of store.now) (take count places.now))))
        out.old out.new × (at ≤ result + 2558) }
{
    let a = push_keys(out, at, store, places, count);
    let b = fields_write_field::push_head(out, a, body::RANGE, at - a);
    fields_write_field::push_head(out, b, command::BODY, at - b)
}
