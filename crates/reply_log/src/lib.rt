// The reply of GETLOG, document 02, CR 1.
#![tactic(auto)]

ghost use Rattle.std.specs.Prelude.{◌≡◌, [], true, ◌≤◌, length};
ghost use Rattle.fields_write_bytes.specs.Pushed.{Starts};
ghost use Rattle.store_layout.specs.Store.{Good};
ghost use Rattle.log_readings.specs.Lent.{readings_good};
ghost use Rattle.protocol.specs.Judge.{log};
ghost use Rattle.reply_command.specs.Repeated.{signed_reply_to};
ghost use Rattle.reply_log_body.specs.Asked.{log_by};

use protocol::status::SUCCESS;
use reply_command::ReplyTo;
use reply_log_body::LogParts;

// A whole signed reply of success with a log of the parts that are asked for.
pub fn put_log(
    out: &mut [u8],
    signing_key: &[u8],
    reply_to: ReplyTo,
    store: &[u8],
    readings: &[u8],
    parts: LogParts,
) -> usize
    requires { (4096 ≤ length out.old) × (length signing_key.now ≤ 64) × Good store.now × (readings_good readings.now ≡ true) }
    ensures { Starts result (signed_reply_to reply_to signing_key.now (log (log_by store.now readings.now parts)) 1 [])
        out.old out.new }
{
    let mut s = [0u8; 1024];
    let a = reply_command::push_status(&mut s, 1024, SUCCESS);
    let b = reply_log_body::push_log(&mut s, a, store, readings, parts);
    let c = reply_command::push_header(&mut s, b, reply_to);
    let d = reply_envelope::finish(&mut s, c, 1024, signing_key, reply_to.identity);
    fields_write_bytes::copy(out, &s[d..1024])
}
