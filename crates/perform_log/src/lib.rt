// GETLOG: what the host lends, how full the store is, and the limits, shown in a reply.
#![tactic(auto)]

ghost use Rattle.std.specs.Prelude.{◌≡◌, true, ◌≤◌, length};
ghost use Rattle.store_layout.specs.Store.{Good};
ghost use Rattle.log_readings.specs.Lent.{readings_good};
ghost use Rattle.protocol.specs.State.{State};
ghost use Rattle.protocol.specs.Judge.{logged};
ghost use Rattle.request_merged.specs.Types.{log_types};
ghost use Rattle.fields_lookup.specs.Views.{Reads};
ghost use Rattle.fields_schema.specs.declared.Kind.TheVariants.{Command};
ghost use Rattle.reply_send.specs.Sent.{replied};
ghost use Rattle.reply_send.specs.Answers.{Answers};

use protocol::log_type::{CAPACITIES, DEVICE, LIMITS, TEMPERATURES, UTILIZATIONS};
use protocol::status::NOT_FOUND;
use reply_command::ReplyTo;
use reply_log_body::LogParts;
use reply_send::send::status;
use request_log_types::{asks, log_types};

// The log that the command asks for, or NOT_FOUND.
pub fn get_log(
    out: &mut [u8],
    signing_key: &[u8],
    reply_to: ReplyTo,
    store: &[u8],
    readings: &[u8],
    command: &[u8],
) -> usize
    requires { (4096 ≤ length out.old) × (length signing_key.now ≤ 64) × Good store.now
        × (readings_good readings.now ≡ true) × Reads Command command.now }
    ensures { (t : State) → t.store ≡ store.now → t.readings ≡ readings.now
        → Answers (λ s. replied reply_to signing_key.now (logged s (log_types command.now))) t out result t }
{
    let types = log_types(command);
    if asks(types, DEVICE) {
        return status(out, signing_key, reply_to, NOT_FOUND);
    }
    let parts = LogParts {
        utilizations: asks(types, UTILIZATIONS),
        temperatures: asks(types, TEMPERATURES),
        capacities: asks(types, CAPACITIES),
        limits: asks(types, LIMITS),
    };
    reply_log::put_log(out, signing_key, reply_to, store, readings, parts)
}
