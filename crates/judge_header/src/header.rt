// Document 01, "The order of judgement": the rules of steps 4 to 6.
ghost use Rattle.std.specs.Prelude.{◌≡◌};
ghost use Rattle.std.proofs.Math.Option.{Option};
ghost use Rattle.base_integers.specs.Signed.{word_of};
ghost use Rattle.fields_lookup.specs.Views.{signed_view};
ghost use Rattle.protocol.specs.Failure.{fault_of};
ghost use Rattle.protocol.specs.State.{State};
ghost use Rattle.protocol.specs.Command.{Header};
ghost use Rattle.protocol_connection.specs.ConnectionOf.{connection_of};
ghost use Rattle.judge_header.specs.HeaderFault.{in_order, header_fault, Heard};

use access_record::Record;
use protocol::status::Failure;
use protocol_connection::Connection;

// ---- step 6

// Whether connectionID is the connection's number, and the sequence above the last accepted one, if there is one.
fn in_order(connection: Connection, id: i64, sequence: i64) -> bool
    ensures { result ≡ in_order (connection_of connection) (word_of id) (word_of sequence) }
{
    id == connection.number && (!connection.seen || connection.last < sequence)
}

// ---- steps 4 to 6

// The first of steps 4 to 6 that fails, by the header's clusterVersion, connectionID and sequence.
pub fn header_fault(
    device: &Record,
    version: i64,
    id: Option<i64>,
    sequence: Option<i64>,
    connection: Connection,
) -> Result<(), Failure>
    ensures { (s : State) (h : Option Header)
        → Heard s h device.now (word_of version) (signed_view id) (signed_view sequence) (connection_of connection)
        → fault_of result ≡ header_fault s h }
{
    let Some(id) = id else {
        return Err(Failure::HeaderRequired);
    };
    let Some(sequence) = sequence else {
        return Err(Failure::HeaderRequired);
    };
    if version != access_record::cluster_version(device) {
        return Err(Failure::VersionFailure);
    }
    if !in_order(connection, id, sequence) {
        return Err(Failure::InvalidRequest);
    }
    Ok(())
}
