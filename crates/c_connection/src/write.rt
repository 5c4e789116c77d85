// A connection in its lent bytes: made new, and written where it changes.
ghost use Rattle.std.specs.Prelude.{◌≡◌};
ghost use Rattle.base_integers.specs.Signed.{word_of};
ghost use Rattle.fields_schema.specs.Tree.{guard};
ghost use Rattle.protocol_connection.specs.ConnectionOf.{connection_of};
ghost use Rattle.c_connection.specs.Layout.{connection_at, connected_bytes, is_last, heard_bytes, hears, closes, becomes};

use crate::layout::Bytes;
use crate::offsets::{CLOSED, LAST, PROTECTED, SEEN};
use access_record::signed_at;
use access_record_bytes::{flag_of, put_signed};
use protocol_connection::Connection;

// A new connection: every byte is written.
pub fn connect(bytes: &mut Bytes, number: i64, protected: bool)
    ensures { bytes.new ≡ connected_bytes (word_of number) protected }
{
    *bytes = [0; 32];
    put_signed(bytes, 0, number);
    bytes[PROTECTED] = flag_of(protected);
}

// Is it the last accepted sequence already?
fn is_last(bytes: &Bytes, sequence: i64) -> bool
    ensures { result ≡ is_last (connection_at bytes.now).last (word_of sequence) }
{
    if bytes[SEEN] == 0 {
        return false;
    }
    signed_at(bytes, LAST) == sequence
}

// A sequence accepted.
fn accept(bytes: &mut Bytes, sequence: i64)
    ensures { bytes.new ≡ heard_bytes bytes.old (word_of sequence) }
{
    bytes[SEEN] = 1;
    put_signed(bytes, LAST, sequence);
}

// The last accepted sequence, where there is one and it is another than before.
fn hear(bytes: &mut Bytes, seen: bool, last: i64)
    ensures { bytes.new ≡ hears bytes.old (guard seen (word_of last)) }
{
    if !seen {
        return;
    }
    if is_last(bytes, last) {
        return;
    }
    accept(bytes, last);
}

fn close(bytes: &mut Bytes, closed: bool)
    ensures { bytes.new ≡ closes bytes.old closed }
{
    if !closed {
        return;
    }
    if bytes[CLOSED] != 0 {
        return;
    }
    bytes[CLOSED] = 1;
}

// The connection became c: what changed is written, and no other byte.
pub fn update(bytes: &mut Bytes, c: Connection)
    ensures { bytes.new ≡ becomes bytes.old (connection_of c) }
{
    hear(bytes, c.seen, c.last);
    close(bytes, c.closed);
}
