// Step 10: each operation done, and its reply written.
#![tactic(auto)]

ghost use Rattle.std.specs.Prelude.{◌≡◌, true, ◌≤◌, length};
ghost use Rattle.store_layout.specs.Store.{Good};
ghost use Rattle.log_readings.specs.Lent.{readings_good};
ghost use Rattle.fields_lookup.specs.Views.{signed_view};
ghost use Rattle.access_record.specs.Table.{acl_of};
ghost use Rattle.access_record.specs.Record.{Placed};
ghost use Rattle.protocol.specs.State.{Connection, State, table, with_device};
ghost use Rattle.protocol.specs.Judge.{set_up, secure, security_good, fault, step10};
ghost use Rattle.request_command.specs.Views.{BodyLies, body_view};
ghost use Rattle.request_scope.specs.Stands.{StandsSecurity, acls_in};
ghost use Rattle.reply_send.specs.Sent.{replied};
ghost use Rattle.reply_send.specs.Answers.{Answers, before, after};

use access_record::Record;
use fields_lookup::parts::Part;
use operation_visible::Viewer;
use perform_get::{Which, get, get_version};
use perform_log::get_log;
use perform_put_delete::{delete, put};
use perform_range::get_key_range;
use protocol::Operation;
use protocol::status::SUCCESS;
use reply_command::ReplyTo;
use reply_send::send::status;
use request_command::Body;

// ---- SETUP, SECURITY

fn setup(
    out: &mut [u8],
    signing_key: &[u8],
    reply_to: ReplyTo,
    device: &mut Record,
    version: Option<i64>,
) -> usize
    requires { (4096 ≤ length out.old) × (length signing_key.now ≤ 64) }
    ensures { (t : State) → t.device ≡ device.old
        → Answers (λ s. replied reply_to signing_key.now (set_up s (signed_view version))) t out result (with_device t device.new) }
{
    operation_put::setup::setup(device, version.is_some(), version.unwrap_or(0));
    status(out, signing_key, reply_to, SUCCESS)
}

// The table judged in step 8, written over the old one.
fn secure(
    out: &mut [u8],
    signing_key: &[u8],
    reply_to: ReplyTo,
    device: &mut Record,
    command: &[u8],
    security: Part,
) -> usize
    requires { (4096 ≤ length out.old) × (length signing_key.now ≤ 64) × StandsSecurity command.now security
        × (security_good (acls_in command.now security) ≡ true) }
    ensures { (t : State) → t.device ≡ device.old
        → let acls = acls_in command.now security in
        Answers (λ s. replied reply_to signing_key.now (secure s acls)) t out result (with_device t device.new) }
{
    let version = access_record::cluster_version(device);
    request_security::security_table(command, security, version, device);
    status(out, signing_key, reply_to, SUCCESS)
}

// ---- step 10

// An operation to be done, with its body, for whom (the place of the ACL, and whether the connection is protected), and to whom its reply goes.
#[derive(Drop)]
pub struct Job {
    pub operation: Operation,
    pub body: Body,
    pub acl: usize,
    pub protected: bool,
    pub reply_to: ReplyTo,
}

// The operation of a job, with a body that step 8 found right.
pub fn perform(
    store: &mut [u8],
    device: &mut Record,
    readings: &[u8],
    job: Job,
    command: &[u8],
    value: &[u8],
    out: &mut [u8],
    signing_key: &[u8],
) -> usize
    requires { (4096 ≤ length out.old) × (length signing_key.now ≤ 64) × Good store.old × BodyLies command.now job.body
        × (fault job.operation (body_view command.now job.body) value.now ≡ 0) × (readings_good readings.now ≡ true)
        × Placed device.old job.acl }
    ensures { (c : Connection) → c.protected ≡ job.protected
        → let body = body_view command.now job.body in
        Answers (λ s. replied job.reply_to signing_key.now
        (step10 s (acl_of (table s) job.acl) job.operation body value.now))
        (before store device readings c) out result (after store device readings c) }
{
    let operation = job.operation;
    let to = job.reply_to;
    let entry = job.body.entry;
    let viewer = Viewer {
        acl: job.acl,
        protected: job.protected,
    };
    let own = Which::Own;
    let next = Which::Next(viewer);
    let below = Which::Previous(viewer);
    match operation {
        Operation::Noop | Operation::FlushAllData => status(out, signing_key, to, SUCCESS),
        Operation::Get => get(out, signing_key, to, own, store, device, command, entry),
        Operation::GetVersion => get_version(out, signing_key, to, store, command, entry),
        Operation::GetNext => get(out, signing_key, to, next, store, device, command, entry),
        Operation::GetPrevious => get(out, signing_key, to, below, store, device, command, entry),
        Operation::GetKeyRange => get_key_range(
            out,
            signing_key,
            to,
            viewer,
            store,
            device,
            command,
            job.body.range,
        ),
        Operation::Put => put(out, signing_key, to, store, command, entry, value),
        Operation::Delete => delete(out, signing_key, to, store, command, entry),
        Operation::Setup => setup(out, signing_key, to, device, job.body.cluster),
        Operation::GetLog => get_log(out, signing_key, to, store, readings, command),
        Operation::Security => secure(out, signing_key, to, device, command, job.body.security),
    }
}
