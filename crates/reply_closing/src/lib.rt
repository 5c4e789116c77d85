// The closing reply, document 01, "Replies". It is written from its end to its front into a local array, framed and copied once to the start of the
// lent buffer; the rest of the buffer stays as it is.
#![tactic(auto)]

ghost use Rattle.std.specs.Prelude.{◌+◌, ◌≤◌, length};
ghost use Rattle.fields_schema.specs.FieldNumbers.{Command-header, Header-connection_id};
ghost use Rattle.base_integers.specs.Signed.{word_of};
ghost use Rattle.fields_schema.specs.Tree.{done, int};
ghost use Rattle.fields_encoding.specs.Encode.{len_field, encode};
ghost use Rattle.fields_write_bytes.specs.Pushed.{Pushed, Starts};
ghost use Rattle.protocol.specs.Reply.{closing_reply};

use fields_schema::field_number::{command, header, message};
use protocol::auth_type::UNSOLICITEDSTATUS;
use reply_command::push_status;
use reply_envelope::push_prefix;

// A header with the connection's number only.
fn push_connection(out: &mut [u8], at: usize, connection: i64) -> usize
    requires { (30 ≤ at) × (at ≤ length out.old) }
    ensures { Pushed result at (len_field Command-header (encode (int Header-connection_id (word_of connection) done)))
        out.old out.new × (at ≤ result + 30) }
{
    let a = fields_write_field::push_signed(out, at, header::CONNECTION_ID, connection);
    fields_write_field::push_head(out, a, command::HEADER, at - a)
}

// A whole closing reply.
pub fn put_closing(out: &mut [u8], connection: i64, code: u64) -> usize
    requires { 4096 ≤ length out.old }
    ensures { Starts result (closing_reply (word_of connection) code) out.old out.new }
{
    let mut s = [0u8; 128];
    let a = push_status(&mut s, 128, code);
    let b = push_connection(&mut s, a, connection);
    let c = fields_write_field::push_head(&mut s, b, message::COMMAND_BYTES, 128 - b);
    let d = fields_write_field::push_int(&mut s, c, message::AUTH_TYPE, UNSOLICITEDSTATUS);
    let e = push_prefix(&mut s, d, 128 - d, 0);
    fields_write_bytes::copy(out, &s[e..128])
}
