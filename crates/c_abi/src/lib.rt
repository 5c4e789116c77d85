// The box's calls for a host in C, over lent bytes. `c_abi_c` exports them; include/ridgeladle.h says how a host uses them.
#![tactic(auto)]

ghost use Rattle.std.specs.Prelude.{◌≡◌, not, ◌^◌, ◌<◌, eqb};
ghost use Rattle.base_integers.specs.Signed.{word_of};
ghost use Rattle.signature_sha1.specs.Sha1.{sha1_answer};
ghost use Rattle.signature_hmac.specs.Hmac.{hmac_answer};
ghost use Rattle.c_digest.specs.Written.{Written};
ghost use Rattle.protocol.specs.Format.{Told};
ghost use Rattle.c_connection.specs.Layout.{connected_bytes, connection_at};
ghost use Rattle.store_rescue.specs.Rescue.{outcome, rescue_of};
ghost use Rattle.store_local_read.specs.Local.{local_of};
ghost use Rattle.c_calls.specs.Find.{looked, looked_up};
ghost use Rattle.c_abi.specs.Calls.{left, answer_call};

use access_record::Record;
use c_connection::layout::Bytes;

// 0 made; or refusal 2 or 6, and nothing is written.
pub fn ridgeladle_format(store: &mut [u8], device: &mut Record, key: &[u8]) -> u32
    ensures { Told result store.old device.old key.now store.new device.new }
{
    c_calls::host::format(store, device, key)
}

// A new connection; protected is yes where not zero.
pub fn ridgeladle_connect(connection: &mut Bytes, number: i64, protected: u8)
    ensures { connection.new ≡ connected_bytes (word_of number) (not (eqb protected 0)) }
{
    c_calls::host::connect(connection, number, protected);
}

// 0 answered, and the counts are those of the input taken and of the reply; or refusal 1 to 5 or 7, and nothing is written.
pub fn ridgeladle_answer(
    store: &mut [u8],
    device: &mut Record,
    connection: &mut Bytes,
    readings: &[u8],
    input: &[u8],
    out: &mut [u8],
    counts: &mut [u64; 2],
) -> u32
    ensures { (left result store.new device.new connection.new out.new counts.new
        ≡ answer_call store.old device.old connection.old readings.now input.now
        out.old counts.old) × ((connection_at connection.old).number < 2 ^ 64) }
{
    let c = c_connection::layout::connection_at(connection);
    let r = device::answer(store, device, readings, c, input, out);
    c_calls::host::note(connection, counts, r)
}

// 0 found, and part is the value's offset in the store and its length; or 1 not found, or refusal 2, and nothing is written.
pub fn ridgeladle_find(store: &[u8], key: &[u8], part: &mut [u64; 2]) -> u32
    ensures { looked result part.new ≡ looked_up part.old (local_of store.now key.now) }
{
    c_calls::store::find(store, key, part)
}

// 0 done, and every byte of store and report is written; or refusal 2 or 8, and nothing is written.
pub fn ridgeladle_rescue(store: &mut [u8], report: &mut [u8]) -> u32
    ensures { outcome result store.new report.new ≡ rescue_of store.old report.old }
{
    c_calls::store::rescue(store, report)
}

// 0 and the digest; or 1 for a text of 2^61 bytes or more, and nothing is written.
pub fn ridgeladle_sha1(text: &[u8], digest: &mut [u8; 20]) -> u32
    ensures { Written (sha1_answer text.now) digest.old result digest.new }
{
    c_digest::signature_sha1(text, digest)
}

// 0 and the digest; or 1 for a key over 128 bytes, else 2 for a text over 1,048,576, and nothing is written.
pub fn ridgeladle_hmac(key: &[u8], text: &[u8], digest: &mut [u8; 20]) -> u32
    ensures { Written (hmac_answer key.now text.now) digest.old result digest.new }
{
    c_digest::signature_hmac(key, text, digest)
}
