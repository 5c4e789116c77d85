// Steps 8 and 9: whether a request is obeyed, by its body and by who asks.
#![tactic(auto)]

ghost use Rattle.std.specs.Prelude.{◌≡◌, true, List, ℕ, length};
ghost use Rattle.access_record.specs.Table.{acl_of};
ghost use Rattle.access_record.specs.Record.{table_of, Placed};
ghost use Rattle.protocol.specs.Failure.{fault_of};
ghost use Rattle.request_command.specs.Views.{BodyLies, body_view};
ghost use Rattle.judge_permission.specs.Numbered.{numbered};
ghost use Rattle.judge_admission.specs.Admission.{admission};

use access_record::Record;
use protocol::Choice;
use protocol::status::Failure;
use request_command::Body;

// Whether the request is obeyed; value is the length of the value part.
pub fn admit(
    choice: Choice,
    device: &Record,
    acl: usize,
    protected: bool,
    command: &[u8],
    body: Body,
    value: usize,
) -> Result<(), Failure>
    requires { Placed device.now acl × BodyLies command.now body × (numbered choice.permission ≡ true) }
    ensures { (v : List ℕ) → length v ≡ value
        → fault_of result ≡ admission (acl_of (table_of device.now) acl) protected choice (body_view command.now body) v }
{
    judge_body::body_fault(choice.operation, command, body, value)?;
    let key = body.entry.key.start;
    if !judge_permission::permitted(
        device,
        acl,
        protected,
        choice.permission,
        &command[key..key + body.entry.key.len],
    ) {
        return Err(Failure::NotAuthorized);
    }
    Ok(())
}
