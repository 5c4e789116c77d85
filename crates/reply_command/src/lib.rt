// The parts of a reply's command, document 01, "Replies", each written in front of what stands behind it.
#![tactic(auto)]

ghost use Rattle.std.specs.Prelude.{◌≡◌, ◌+◌, ◌≤◌, length};
ghost use Rattle.fields_encoding.specs.Encode.{len_field, encode};
ghost use Rattle.fields_write_bytes.specs.Pushed.{Pushed, maybe};
ghost use Rattle.protocol.specs.Judge.{key_value};
ghost use Rattle.protocol.specs.Reply.{status_tree};
ghost use Rattle.reply_command.specs.Parts.{body_bytes};
ghost use Rattle.reply_command.specs.Repeated.{ack_of, header_to};
ghost use Rattle.fields_schema.specs.FieldNumbers.{Command-header};

use base_integers::word;
use fields_schema::field_number::{body, command, header, key_value, status};

// What a reply repeats: the identity, the connection's number, the request's sequence if it has one, and the reply's type.
#[derive(Clone, Copy)]
pub struct ReplyTo {
    pub identity: i64,
    pub connection: i64,
    pub sequence: Option<i64>,
    pub kind: u64,
}

// The ackSequence of a reply.
fn ack(reply_to: ReplyTo) -> Option<u64>
    ensures { maybe result ≡ ack_of reply_to }
{
    reply_to.sequence.map(word)
}

// The status, the last part of a command.
pub fn push_status(out: &mut [u8], at: usize, code: u64) -> usize
    requires { (30 ≤ at) × (at ≤ length out.old) }
    ensures { Pushed result at (encode (status_tree code)) out.old out.new × (at ≤ result + 30) }
{
    let a = fields_write_field::push_int(out, at, status::CODE, code);
    fields_write_field::push_head(out, a, command::STATUS, at - a)
}

// The header, the first part of a command.
pub fn push_header(out: &mut [u8], at: usize, reply_to: ReplyTo) -> usize
    requires { (60 ≤ at) × (at ≤ length out.old) }
    ensures { Pushed result at (len_field Command-header (encode (header_to reply_to))) out.old out.new × (at ≤ result + 60) }
{
    let a = fields_write_field::push_int(out, at, header::MESSAGE_TYPE, reply_to.kind);
    let b = fields_write_optional::push_maybe(out, a, header::ACK_SEQUENCE, ack(reply_to));
    let c = fields_write_field::push_signed(out, b, header::CONNECTION_ID, reply_to.connection);
    fields_write_field::push_head(out, c, command::HEADER, at - c)
}

// A body with a keyValue; empty parts are left out, the keyValue is not.
pub fn push_key_value(
    out: &mut [u8],
    at: usize,
    key: &[u8],
    version: &[u8],
    tag: &[u8],
    algorithm: u64,
) -> usize
    requires { (length key.now ≤ 64) × (length version.now ≤ 16) × (length tag.now ≤ 32) × (202 ≤ at) × (at ≤ length out.old) }
    ensures { Pushed result at (body_bytes (key_value key.now version.now tag.now algorithm))
        out.old out.new × (at ≤ result + 202) }
{
    let a = fields_write_optional::push_nonzero(out, at, key_value::ALGORITHM, algorithm);
    let b = fields_write_optional::push_nonempty(out, a, key_value::TAG, tag);
    let c = fields_write_optional::push_nonempty(out, b, key_value::DB_VERSION, version);
    let d = fields_write_optional::push_nonempty(out, c, key_value::KEY, key);
    let e = fields_write_field::push_head(out, d, body::KEY_VALUE, at - d);
    fields_write_field::push_head(out, e, command::BODY, at - e)
}
