// What Format and Connect say to C, and what becomes of the answering call's response: numbers, counts, and bytes of the connection.
ghost use Rattle.std.specs.Prelude.{◌≡◌, not, eqb};
ghost use Rattle.base_integers.specs.Signed.{word_of};
ghost use Rattle.protocol.specs.Format.{Told};
ghost use Rattle.c_connection.specs.Layout.{connected_bytes};
ghost use Rattle.c_calls.specs.Notes.{noted, notes};

use access_record::Record;
use c_connection::layout::Bytes;
use device_format::FormatError;
use device_response::{Answered, Refusal};

// 0 made; or refusal 2 or 6, and nothing is written.
pub fn format(store: &mut [u8], device: &mut Record, key: &[u8]) -> u32
    ensures { Told result store.old device.old key.now store.new device.new }
{
    match device_format::format(store, device, key) {
        Ok(()) => 0,
        Err(FormatError::StoreBad) => 2,
        Err(FormatError::KeyBad) => 6,
    }
}

// A new connection; protected is yes where not zero.
pub fn connect(connection: &mut Bytes, number: i64, protected: u8)
    ensures { connection.new ≡ connected_bytes (word_of number) (not (eqb protected 0)) }
{
    c_connection::write::connect(connection, number, protected != 0);
}

// The number of a response; where it is an answer, what changed of the connection, and the counts.
pub fn note(connection: &mut Bytes, counts: &mut [u64; 2], r: Result<Answered, Refusal>) -> u32
    ensures { noted result connection.new counts.new ≡ notes connection.old counts.old r }
{
    match r {
        Err(refusal) => refusal.number(),
        Ok(answered) => {
            *counts = [answered.taken as u64, answered.written as u64];
            c_connection::write::update(connection, answered.connection);
            0
        }
    }
}
