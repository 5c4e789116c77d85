// A connection in 32 lent bytes: its layout, and the connection read.
ghost use Rattle.std.specs.Prelude.{◌≡◌};
ghost use Rattle.protocol_connection.specs.ConnectionOf.{connection_of};
ghost use Rattle.c_connection.specs.Layout.{connection_at};

use crate::offsets::{CLOSED, LAST, PROTECTED, SEEN};
use access_record::signed_at;
use protocol_connection::Connection;

pub type Bytes = [u8; 32];

// The connection that the bytes hold.
pub fn connection_at(bytes: &Bytes) -> Connection
    ensures { connection_of result ≡ connection_at bytes.now }
{
    Connection {
        number: signed_at(bytes, 0),
        protected: bytes[PROTECTED] != 0,
        closed: bytes[CLOSED] != 0,
        seen: bytes[SEEN] != 0,
        last: signed_at(bytes, LAST),
    }
}
