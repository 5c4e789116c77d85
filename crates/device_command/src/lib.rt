// Steps 3 to 10: what comes of a command that was signed right.
#![tactic(auto)]

ghost use Rattle.std.specs.Prelude.{◌≡◌, true, cond, ℕ, ◌≤◌, length, Some};
ghost use Rattle.std.proofs.Math.Option.{Option, none, some};
ghost use Rattle.store_layout.specs.Store.{Good};
ghost use Rattle.log_readings.specs.Lent.{readings_good};
ghost use Rattle.access_record.specs.Table.{acl_of, place_of, table_good};
ghost use Rattle.access_record.specs.Record.{table_of, Placed};
ghost use Rattle.base_integers.specs.Signed.{word_of};
ghost use Rattle.fields_lookup.specs.Views.{num_view, signed_view};
ghost use Rattle.protocol.specs.State as state;
ghost use Rattle.protocol.specs.State.{table};
ghost use Rattle.protocol.specs.Reading.{decoded, decodes};
ghost use Rattle.protocol.specs.Operation.{asked_by};
ghost use Rattle.protocol.specs.Answer.{respond};
ghost use Rattle.protocol.specs.Box.{box, judged};
ghost use Rattle.judge_header.specs.Rest.{rest};
ghost use Rattle.judge_permission.specs.Numbered.{asked_numbered};
ghost use Rattle.request_command.specs.Views.{BodyLies, body_view};
ghost use Rattle.protocol_connection.specs.ConnectionOf.{connection_of};
ghost use Rattle.device_command.specs.Commands.{command_in, HeadingOf};
ghost use Rattle.reply_send.specs.Sent.{replied};
ghost use Rattle.reply_send.specs.Answers.{Answers, before, after};

use access_record::Record;
use judge_header::header::header_fault;
use judge_header::message_type::{asked_by, reply_type};
use perform::Job;
use protocol::Choice;
use protocol::message_type::INVALID_MESSAGE_TYPE;
use protocol::status::INVALID_REQUEST;
use protocol_connection::Connection;
use reply_command::ReplyTo;
use reply_send::close::Replied;
use reply_send::send::status;
use request_command::{Body, Request};
use request_numbers::signed_or;

// Who sent a command: the identity, the place of its ACL in the table, and the connection that the command came on.
#[derive(Drop)]
pub struct Sender {
    pub identity: i64,
    pub acl: usize,
    pub connection: Connection,
}

// A command that decodes, and who sent it.
#[derive(Drop)]
struct Received {
    sender: Sender,
    request: Request,
}

// What the header of a request says: its clusterVersion, its connectionID and its sequence, and what its messageType asks for.
#[derive(Drop)]
struct Heading {
    version: i64,
    id: Option<i64>,
    sequence: Option<i64>,
    asked: Option<Choice>,
}

// A request that passed steps 4 to 6: for whom (the place of the ACL, and whether the connection is protected), what it asks for, with what body, and to whom
// the reply goes.
#[derive(Drop)]
struct Accepted {
    acl: usize,
    protected: bool,
    asked: Option<Choice>,
    body: Body,
    reply_to: ReplyTo,
}

// Steps 7 to 10.
fn admit_and_perform(
    store: &mut [u8],
    device: &mut Record,
    readings: &[u8],
    accepted: Accepted,
    command: &[u8],
    value: &[u8],
    out: &mut [u8],
    signing_key: &[u8],
) -> usize
    requires { (4096 ≤ length out.old) × (length signing_key.now ≤ 64) × Good store.old × Placed device.old accepted.acl
        × BodyLies command.now accepted.body × (readings_good readings.now ≡ true) × (asked_numbered accepted.asked ≡ true) }
    ensures { (c : state.Connection) (type : Option ℕ) → c.protected ≡ accepted.protected
        → accepted.asked ≡ asked_by type → let body = body_view command.now accepted.body in
        Answers (λ s. replied accepted.reply_to signing_key.now
        (rest s (acl_of (table s) accepted.acl) type body value.now))
        (before store device readings c) out result (after store device readings c) }
{
    match accepted.asked {
        Some(choice) => {
            match judge_admission::admit(
                choice,
                device,
                accepted.acl,
                accepted.protected,
                command,
                accepted.body,
                value.len(),
            ) {
                Err(failure) => status(out, signing_key, accepted.reply_to, failure.number()),
                Ok(()) => {
                    let job = Job {
                        operation: choice.operation,
                        body: accepted.body,
                        acl: accepted.acl,
                        protected: accepted.protected,
                        reply_to: accepted.reply_to,
                    };
                    perform::perform(
                        store,
                        device,
                        readings,
                        job,
                        command,
                        value,
                        out,
                        signing_key,
                    )
                }
            }
        }
        None => status(out, signing_key, accepted.reply_to, INVALID_REQUEST),
    }
}

// A signed number of a header, if there is a header.
fn in_header(headed: bool, n: Option<i64>) -> Option<i64>
    ensures { signed_view result ≡ cond headed (signed_view n) none }
{
    if headed { n } else { None }
}

// What a messageType asks for, if there is a header.
fn asked_in(headed: bool, n: Option<u64>) -> Option<Choice>
    ensures { result ≡ asked_by (cond headed (num_view n) none) }
{
    if headed { asked_by(n) } else { None }
}

// What the header of a request says; one that is absent has none of it, and asks for nothing.
fn heading_of(request: Request) -> Heading
    ensures { HeadingOf request result }
{
    Heading {
        version: signed_or(request.header.cluster, 0),
        id: in_header(request.headed, request.header.connection),
        sequence: in_header(request.headed, request.header.sequence),
        asked: asked_in(request.headed, request.header.kind),
    }
}

// Steps 4 to 10.
fn answer_request(
    store: &mut [u8],
    device: &mut Record,
    readings: &[u8],
    received: Received,
    command: &[u8],
    value: &[u8],
    out: &mut [u8],
    signing_key: &[u8],
) -> Replied
    requires { (4096 ≤ length out.old) × (length signing_key.now ≤ 64) × Good store.old × Placed device.old received.sender.acl
        × BodyLies command.now received.request.body × (readings_good readings.now ≡ true) }
    ensures { let sender = received.sender in
        let asked = command_in command.now received.request in
        Answers (λ s. judged s (word_of sender.identity) signing_key.now asked value.now (some (acl_of (table s) sender.acl)))
        (before store device readings (connection_of sender.connection)) out result.written (after store device readings (connection_of result.connection)) }
{
    let sender = received.sender;
    let connection = sender.connection;
    let heading = heading_of(received.request);
    let sequence = heading.sequence;
    let number = sequence.unwrap_or(0);
    let asked = heading.asked;
    let reply_to = ReplyTo {
        identity: sender.identity,
        connection: connection.number,
        sequence,
        kind: reply_type(asked),
    };
    match header_fault(device, heading.version, heading.id, sequence, connection) {
        Err(failure) => Replied {
            written: status(out, signing_key, reply_to, failure.number()),
            connection,
        },
        Ok(()) => {
            let accepted = Accepted {
                acl: sender.acl,
                protected: connection.protected,
                asked,
                body: received.request.body,
                reply_to,
            };
            Replied {
                written: admit_and_perform(
                    store,
                    device,
                    readings,
                    accepted,
                    command,
                    value,
                    out,
                    signing_key,
                ),
                connection: protocol_connection::accept(connection, number),
            }
        }
    }
}

// Steps 3 to 10: the command in the commandBytes, of a sender in the table.
pub fn answer_command(
    store: &mut [u8],
    device: &mut Record,
    readings: &[u8],
    sender: Sender,
    command: &[u8],
    value: &[u8],
    out: &mut [u8],
    signing_key: &[u8],
) -> Replied
    requires { (4096 ≤ length out.old) × (length signing_key.now ≤ 64) × Good store.old × (table_good (table_of device.old) ≡ true)
        × (place_of (table_of device.old) (word_of sender.identity) ≡ Some sender.acl) × (readings_good readings.now ≡ true) }
    ensures { let reading = decoded (word_of sender.identity) signing_key.now (decodes command.now) in
        Answers (λ s. respond box s value.now reading)
        (before store device readings (connection_of sender.connection)) out result.written (after store device readings (connection_of result.connection)) }
{
    let request = request_command::read_request(command);
    let ok = request.ok;
    if ok {
        let received = Received { sender, request };
        return answer_request(
            store,
            device,
            readings,
            received,
            command,
            value,
            out,
            signing_key,
        );
    }
    let connection = sender.connection;
    let reply_to = ReplyTo {
        identity: sender.identity,
        connection: connection.number,
        sequence: None,
        kind: INVALID_MESSAGE_TYPE,
    };
    Replied {
        written: status(out, signing_key, reply_to, INVALID_REQUEST),
        connection,
    }
}
