// The reply that closes a connection.
ghost use Rattle.std.specs.Prelude.{List, ℕ, ◌≤◌, length};
ghost use Rattle.protocol.specs.State.{lent};
ghost use Rattle.protocol.specs.Box.{close};
ghost use Rattle.protocol_connection.specs.ConnectionOf.{connection_of};
ghost use Rattle.reply_send.specs.Answers.{Answers};

use protocol_connection::Connection;

// A reply of so many bytes, and the connection after it.
#[derive(Drop)]
pub struct Replied {
    pub written: usize,
    pub connection: Connection,
}

// The closing reply with a code.
pub fn close(connection: Connection, out: &mut [u8], code: u64) -> Replied
    requires { 4096 ≤ length out.old }
    ensures { (store device readings : List ℕ) →
        Answers (λ s. close s code) (lent store device readings (connection_of connection)) out result.written
        (lent store device readings (connection_of result.connection)) }
{
    Replied {
        written: reply_closing::put_closing(out, connection.number, code),
        connection: protocol_connection::close(connection),
    }
}
