// Steps 1 and 2: a whole message read, its sender looked up and its hmac verified; the command is left to the steps after them.
#![tactic(auto)]

ghost use Rattle.std.specs.Prelude.{◌≡◌, true, ◌≤◌, length, take, Some};
ghost use Rattle.std.proofs.Math.Option.{some};
ghost use Rattle.base_integers.specs.Signed.{word_of};
ghost use Rattle.access_record.specs.Table.{acl_of, place_of, table_good};
ghost use Rattle.access_record.specs.Record.{table_of, Placed};
ghost use Rattle.signature_hmac.specs.Hmac.{hmac};
ghost use Rattle.store_layout.specs.Store.{Good};
ghost use Rattle.log_readings.specs.Lent.{readings_good};
ghost use Rattle.protocol.specs.State.{table};
ghost use Rattle.protocol.specs.Reading.{verified};
ghost use Rattle.protocol.specs.Answer.{reading, respond};
ghost use Rattle.protocol.specs.Box.{box};
ghost use Rattle.protocol_connection.specs.ConnectionOf.{connection_of};
ghost use Rattle.reply_send.specs.Answers.{Answers, before, after};

use access_record::Record;
use device_command::Sender;
use protocol::status::{CONNECTION_TERMINATED, HMAC_FAILURE};
use protocol_connection::Connection;
use reply_send::close::{Replied, close};

// The key at a place, copied: SECURITY overwrites the record before its reply is signed.
fn copy_key(device: &Record, acl: usize, key: &mut [u8]) -> usize
    requires { Placed device.now acl × (64 ≤ length key.old) }
    ensures { (take result key.new ≡ (acl_of (table_of device.now) acl).key) × (result ≤ 64) }
{
    fields_write_bytes::copy(key, access_identity::key_of(device, acl))
}

// Step 2 for an identity of the table, and what follows.
fn verify_sender(
    store: &mut [u8],
    device: &mut Record,
    readings: &[u8],
    sender: Sender,
    digest: &[u8],
    command: &[u8],
    value: &[u8],
    out: &mut [u8],
) -> Replied
    requires { (4096 ≤ length out.old) × Good store.old × (table_good (table_of device.old) ≡ true)
        × (place_of (table_of device.old) (word_of sender.identity) ≡ Some sender.acl)
        × (length command.now ≤ 8192) × (readings_good readings.now ≡ true) }
    ensures { Answers (λ s. respond box s value.now
        (verified hmac (box.key_of s) (word_of sender.identity) digest.now command.now (some (acl_of (table s) sender.acl).key)))
        (before store device readings (connection_of sender.connection)) out result.written (after store device readings (connection_of result.connection)) }
{
    if !signature_hmac::verify(access_identity::key_of(device, sender.acl), command, digest) {
        return close(sender.connection, out, HMAC_FAILURE);
    }
    let mut key = [0u8; 64];
    let n = copy_key(device, sender.acl, &mut key);
    device_command::answer_command(
        store,
        device,
        readings,
        sender,
        command,
        value,
        out,
        &key[..n],
    )
}

// Steps 1 to 10: the reply to a whole message.
pub fn answer_message(
    store: &mut [u8],
    device: &mut Record,
    readings: &[u8],
    connection: Connection,
    message: &[u8],
    value: &[u8],
    out: &mut [u8],
) -> Replied
    requires { (4096 ≤ length out.old) × Good store.old × (table_good (table_of device.old) ≡ true) × (length message.now ≤ 8192)
        × (readings_good readings.now ≡ true) }
    ensures { Answers (λ s. respond box s value.now (reading box s message.now))
        (before store device readings (connection_of connection)) out result.written (after store device readings (connection_of result.connection)) }
{
    let Some(m) = request_message::read_message(message) else {
        return close(connection, out, CONNECTION_TERMINATED);
    };
    let identity = m.identity;
    let hmac = m.hmac.start;
    let hmac_end = hmac + m.hmac.len;
    let command = m.command.start;
    let command_end = command + m.command.len;
    match access_identity::find_identity(device, identity) {
        Some(acl) => {
            let sender = Sender {
                identity,
                acl,
                connection,
            };
            verify_sender(
                store,
                device,
                readings,
                sender,
                &message[hmac..hmac_end],
                &message[command..command_end],
                value,
                out,
            )
        }
        None => close(connection, out, HMAC_FAILURE),
    }
}
