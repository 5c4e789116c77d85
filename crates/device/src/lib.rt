// The box: the calls that hosts use. The answering call is here; the others stand in the crates that they are named from.
#![tactic(auto)]

ghost use Rattle.std.specs.Prelude.{◌≡◌, true, ◌≤◌, length};
ghost use Rattle.access_record.specs.Table.{table_good};
ghost use Rattle.access_record.specs.Record.{table_of};
ghost use Rattle.store_layout.specs.Store.{Good};
ghost use Rattle.protocol.specs.Frame.{frame_of};
ghost use Rattle.protocol.specs.Answer.{serve};
ghost use Rattle.protocol.specs.Box.{box};
ghost use Rattle.protocol_connection.specs.ConnectionOf.{connection_of};
ghost use Rattle.reply_send.specs.Answers.{before, after};
ghost use Rattle.device_response.specs.Called.{AnswersOrRefuses, AnsweringCall};

use access_record::Record;
pub use device_format::{FormatError, format};
pub use device_response::{Answered, Refusal};
use protocol::status::CONNECTION_TERMINATED;
use protocol_connection::Connection;
pub use protocol_connection::connect;
use request_frame::Framed;
pub use store_local_read::{local_find, local_read};

// The input answered, once no refusal but MORE and that of the readings is left.
fn answer_frame(
    store: &mut [u8],
    device: &mut Record,
    readings: &[u8],
    connection: Connection,
    input: &[u8],
    out: &mut [u8],
) -> Result<Answered, Refusal>
    requires { (4096 ≤ length out.old) × Good store.old × (table_good (table_of device.old) ≡ true) }
    ensures { AnswersOrRefuses (λ s. serve box s (length input.now) (frame_of input.now))
        (before store device readings (connection_of connection)) out result (after store device readings (connection_of connection)) }
{
    match request_frame::frame_at(input) {
        Framed::More => Err(Refusal::More),
        Framed::Closes => {
            if !log_readings::good(readings) {
                return Err(Refusal::ReadingsBad);
            }
            let r = reply_send::close::close(connection, out, CONNECTION_TERMINATED);
            Ok(Answered {
                written: r.written,
                taken: input.len(),
                connection: r.connection,
            })
        }
        Framed::Whole { message, value } => {
            if !log_readings::good(readings) {
                return Err(Refusal::ReadingsBad);
            }
            let m = 9 + message;
            let v = m + value;
            let r = device_message::answer_message(
                store,
                device,
                readings,
                connection,
                &input[9..m],
                &input[m..v],
                out,
            );
            Ok(Answered {
                written: r.written,
                taken: v,
                connection: r.connection,
            })
        }
    }
}

// Answers the input on a connection: any bytes, in any lent state.
pub fn answer(
    store: &mut [u8],
    device: &mut Record,
    readings: &[u8],
    connection: Connection,
    input: &[u8],
    out: &mut [u8],
) -> Result<Answered, Refusal>
    ensures { AnsweringCall input.now
        (before store device readings (connection_of connection)) out result (after store device readings (connection_of connection)) }
{
    if out.len() < 4096 {
        return Err(Refusal::OutShort);
    }
    if !store_check::check(store) {
        return Err(Refusal::StoreBad);
    }
    if !access_check::record_good(device) {
        return Err(Refusal::DeviceBad);
    }
    if connection.closed {
        return Err(Refusal::Closed);
    }
    answer_frame(store, device, readings, connection, input, out)
}
